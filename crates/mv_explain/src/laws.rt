//! What holds of explanations, whoever writes them.

ghost use Rattle.std.specs.Prelude.{◌≡◌, ℕ, List};
ghost use Rattle.mv_explain.specs.Explained.{IsExplained};

/// An input has at most one explanation.
pub fn an_input_has_one_explanation()
    ensures { (bytes s t : List ℕ) → IsExplained bytes s → IsExplained bytes t → s ≡ t }
{}
