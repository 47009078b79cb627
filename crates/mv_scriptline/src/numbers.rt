//! Lists in the values of a script.

use std::marker::Model;

/// A list of numbers of event control blocks.
#[derive(Debug, Drop)]
pub struct Numbers {
    pub numbers: Vec<u32>,
}

impl Model for Numbers {
    ghost use Rattle.std.specs.Prelude.{List, ℕ};

    ghost Value = { List ℕ };

    ghost view = { λ n. n.numbers.items };
}
