//! A reader of scripts, line by line (`specs/Reading.antt`). It returns the script of `specs/Script.antt`, which is sound by
//! `specs/Sound.antt`, or the first fault of `specs/Fault.antt`.

ghost use Rattle.std.specs.Prelude.{◌≡◌, ◌<◌, ◌-◌, ◌^◌, ◌++◌, List, [], ◌∷◌, true, None, not, ◌||◌, nat_lt, is_some};
ghost use Rattle.std.specs.Prelude.{length, count_by, IfOk, IfErr, OnOk};
ghost use Rattle.mv_scriptline.specs.declared.call.Call.{Call};
ghost use Rattle.mv_scriptline.specs.declared.statement.Statement.{Statement};
ghost use Rattle.mv_scriptline.specs.declared.statement.Statement.TheVariants as statement;
ghost use Rattle.mv_script.specs.Fault.{first_fault, TellsFirst, line_rules, leads_down, is_no_obtain, obtain_meant};
ghost use Rattle.mv_script.specs.Reading.{IsBehind, IsToTake, IsTaken};
ghost use Rattle.mv_script.specs.Script.{script_data, script_of, script_in, tasks_of, sizes_behind, is_obtain};
ghost use Rattle.mv_script.specs.Sound.{IsSound, IsGoodStatement};

use crate::ScriptRefusal;
use crate::configuration::{unbudgeted, with_budgets};
use crate::cost::cost;
use crate::script::Script;
use crate::table::uses_any;
use mv_calls::{Table, ValidTable};
use mv_io::NoMemory;
use mv_line::{LineReader, LineRefusal, is_foreign, is_too_long, read_lines, shown};
use mv_machine::{Exit, ValidConfig};
use mv_scriptline::{
    Call, CallList, EVENTS_LIMIT, Kind, MOST_CALLS, MOST_ECBS, MOST_EXITS, Numbers, Sizes,
    Statement,
};
use std::alloc::Global;

/// Reads a script.
///
/// The text is cut into lines as that of a deck is. Empty lines are ignored, and there are no comments. Lines are counted from 1
/// in a `u32`, and the line after the last has a number, too; so the text has fewer than 2^32 - 1 bytes. The time is linear in
/// the bytes.
///
/// # Errors
///
/// `Fault`, the first fault of the text, if it has one. `NoMemory` if there is not enough memory for the script, which may happen
/// before a fault is reached.
pub fn read_script(alloc: Global, bytes: &[u8]) -> Result<Script, ScriptRefusal>
    requires short { length bytes.now < 2 ^ 32 - 1 }

    // A text that is read has no fault, and the result is its script.
    ensures script { IfOk result (λ s. (first_fault bytes.now ≡ None) × (script_data s ≡ script_of bytes.now)) }
    // The script can be run.
    ensures sound { IfOk result (λ s. IsSound (script_data s)) }
    // A fault that is returned is the first.
    ensures fault { IfErr result (λ e. TellsFirst e (first_fault bytes.now)) }
{
    let mut reading = Reading::new(alloc);
    if let Err(refusal) = read_lines(&mut reading, bytes) {
        return Err(refusal);
    }
    Ok(reading.script()?)
}

// What the lines so far have stated.
#[derive(Drop)]
struct Reading {
    alloc: Global,
    // How many tasks SCRIPT states; 0 before it.
    stated: u32,
    owners: Vec<u32>,
    exits: Vec<Exit>,
    // The table of events, from TABLE on.
    table: Option<ValidTable>,
    // The configuration by which costs are computed, from the first TASK on.
    costs: Option<ValidConfig>,
    // The tasks before the last one, and what their calls may cost.
    finished: Vec<CallList>,
    budgets: Vec<u32>,
    // The calls of the last task, what they may cost, and how many of them are OBTAINs.
    calls: Vec<Call>,
    spent: u32,
    obtains: u32,
    // How many more events the calls may cost.
    room: u32,
    // Whether END was read.
    ended: bool,
}

impl<'a> LineReader<'a> for Reading {
    ghost use Rattle.mv_scriptline.specs.declared.statement.Statement.{Statement};

    type Kind = Kind;

    ghost Said = { List Statement };

    ghost rules = { λ _. line_rules };

    ghost HasTaken = { λ _ earlier r. IsBehind earlier r };

    fn take_line(&mut self, line: &'a [u8]) -> Result<(), LineRefusal<Kind>> {
        if is_foreign(line) {
            return Err(LineRefusal::Has(Kind::ForeignByte));
        }
        if is_too_long(line) {
            return Err(LineRefusal::Has(Kind::TooLong));
        }
        let text = shown(line);
        if text.is_empty() {
            return Ok(());
        }
        let sizes = Sizes {
            tasks: self.stated,
            ecbs: self.owners.len() as u32,
            table: self.stated_table(),
        };
        let statement = sizes.statement_of(self.alloc, text)?;
        self.take(statement)
    }

    fn kind_at_end(&self) -> Option<Kind> {
        if self.ended { None } else { Some(Kind::NoEnd) }
    }
}

impl Reading {
    fn new(alloc: Global) -> Self
        ensures { IsBehind [] result }
    {
        Reading {
            alloc,
            stated: 0,
            owners: Vec::new(alloc),
            exits: Vec::new(alloc),
            table: None,
            costs: None,
            finished: Vec::new(alloc),
            budgets: Vec::new(alloc),
            calls: Vec::new(alloc),
            spent: 0,
            obtains: 0,
            room: EVENTS_LIMIT,
            ended: false,
        }
    }

    // Takes a statement.
    fn take(&mut self, statement: Statement) -> Result<(), LineRefusal<Kind>>
        requires { IsToTake self.now (statement) }
        ensures { (earlier : List Statement) → IsBehind earlier self.old → IsGoodStatement (sizes_behind earlier) (statement)
            → IsTaken result earlier (statement) self.new }
    {
        match statement {
            Statement::Script(tasks) => self.take_script(tasks),
            Statement::Ecb(owner) => self.take_ecb(owner),
            Statement::Exit { source, targets } => self.take_exit(source, targets),
            Statement::Table(table) => self.take_table(table),
            Statement::Task => self.take_task(),
            Statement::Call(call) => self.take_call(call),
            Statement::End => self.take_end(),
        }
    }

    // Takes a SCRIPT of this many tasks.
    fn take_script(&mut self, tasks: u32) -> Result<(), LineRefusal<Kind>>
        requires { IsToTake self.now (statement.Script tasks) }
        ensures { (earlier : List Statement) → IsBehind earlier self.old → IsGoodStatement (sizes_behind earlier) (statement.Script tasks)
            → IsTaken result earlier (statement.Script tasks) self.new }
    {
        if self.stated > 0 {
            return Err(LineRefusal::Has(Kind::OutOfOrder));
        }
        self.stated = tasks;
        Ok(())
    }

    // Whether an ECB is out of order here.
    fn is_late_for_ecbs(&self) -> bool
        ensures { result ≡ (not (nat_lt 0 self.now.stated)
            || (nat_lt 0 (length self.now.exits.items) || (is_some self.now.table || (is_some self.now.costs || self.now.ended)))) }
    {
        self.stated == 0
            || !self.exits.is_empty()
            || self.table.is_some()
            || self.costs.is_some()
            || self.ended
    }

    // Whether an EXIT is out of order here.
    fn is_late_for_exits(&self) -> bool
        ensures { result ≡ (not (nat_lt 0 self.now.stated)
            || (is_some self.now.table || (is_some self.now.costs || self.now.ended))) }
    {
        self.stated == 0 || self.table.is_some() || self.costs.is_some() || self.ended
    }

    // Whether a TABLE is out of order here.
    fn is_late_for_table(&self) -> bool
        ensures { result ≡ (not (nat_lt 0 self.now.stated) || (is_some self.now.costs || self.now.ended)) }
    {
        self.stated == 0 || self.costs.is_some() || self.ended
    }

    // Whether a TASK and an END are out of order here.
    fn is_closed(&self) -> bool
        ensures { result ≡ (not (nat_lt 0 self.now.stated) || self.now.ended) }
    {
        self.stated == 0 || self.ended
    }

    // Takes an ECB whose owner is this task.
    fn take_ecb(&mut self, owner: u32) -> Result<(), LineRefusal<Kind>>
        requires { IsToTake self.now (statement.Ecb owner) }
        ensures { (earlier : List Statement) → IsBehind earlier self.old → IsGoodStatement (sizes_behind earlier) (statement.Ecb owner)
            → IsTaken result earlier (statement.Ecb owner) self.new }
    {
        if self.is_late_for_ecbs() {
            return Err(LineRefusal::Has(Kind::OutOfOrder));
        }
        if self.owners.len() >= MOST_ECBS {
            return Err(LineRefusal::Has(Kind::Miscounted));
        }
        self.owners.push(owner)?;
        Ok(())
    }

    // Takes an EXIT.
    fn take_exit(&mut self, source: u32, targets: Numbers) -> Result<(), LineRefusal<Kind>>
        requires { IsToTake self.now (statement.Exit source targets) }
        ensures { (earlier : List Statement) → IsBehind earlier self.old
            → IsGoodStatement (sizes_behind earlier) (statement.Exit source targets)
            → IsTaken result earlier (statement.Exit source targets) self.new }
    {
        if self.is_late_for_exits() {
            return Err(LineRefusal::Has(Kind::OutOfOrder));
        }
        if self.exits.len() >= MOST_EXITS {
            return Err(LineRefusal::Has(Kind::Miscounted));
        }
        let targets = targets.numbers;
        if is_downward(source, &targets) {
            return Err(LineRefusal::Has(Kind::LeadsDown));
        }
        self.exits.push(Exit { source, targets })?;
        Ok(())
    }

    // Takes a TABLE.
    fn take_table(&mut self, table: Table) -> Result<(), LineRefusal<Kind>>
        requires { IsToTake self.now (statement.Table table) }
        ensures { (earlier : List Statement) → IsBehind earlier self.old → IsGoodStatement (sizes_behind earlier) (statement.Table table)
            → IsTaken result earlier (statement.Table table) self.new }
    {
        if self.is_late_for_table() {
            return Err(LineRefusal::Has(Kind::OutOfOrder));
        }
        if self.table.is_some() {
            return Err(LineRefusal::Has(Kind::Miscounted));
        }
        let config = unbudgeted(self.alloc, self.stated, &self.owners, &self.exits)?;
        match table.check(&config) {
            Ok(table) => {
                self.table = Some(table);
                Ok(())
            }
            Err(_) => Err(LineRefusal::Has(Kind::BadTable)),
        }
    }

    // The table of events so far, if there is one.
    fn stated_table(&self) -> Option<Table>
        ensures { result ≡ self.now.table }
    {
        match &self.table {
            Some(table) => Some(*table.table()),
            None => None,
        }
    }

    // Takes a TASK.
    fn take_task(&mut self) -> Result<(), LineRefusal<Kind>>
        requires { IsToTake self.now (statement.Task) }
        ensures { (earlier : List Statement) → IsBehind earlier self.old → IsGoodStatement (sizes_behind earlier) (statement.Task)
            → IsTaken result earlier (statement.Task) self.new }
    {
        if self.is_closed() {
            return Err(LineRefusal::Has(Kind::OutOfOrder));
        }
        if self.task_count() >= self.stated {
            return Err(LineRefusal::Has(Kind::Miscounted));
        }
        if self.costs.is_some() {
            self.finish()?;
            return Ok(());
        }
        let costs = unbudgeted(self.alloc, self.stated, &self.owners, &self.exits)?;
        self.costs = Some(costs);
        Ok(())
    }

    // How many tasks have begun, the last one included.
    fn task_count(&self) -> u32
        requires { (earlier : List Statement) × IsBehind earlier self.now }
        ensures { (earlier : List Statement) → IsBehind earlier self.now → result ≡ length (tasks_of earlier) }
    {
        let finished = self.finished.len() as u32;
        if self.costs.is_some() {
            finished + 1
        } else {
            finished
        }
    }

    // Takes a call of the last task.
    fn take_call(&mut self, call: Call) -> Result<(), LineRefusal<Kind>>
        requires { IsToTake self.now (statement.Call call) }
        ensures { (earlier : List Statement) → IsBehind earlier self.old → IsGoodStatement (sizes_behind earlier) (statement.Call call)
            → IsTaken result earlier (statement.Call call) self.new }
    {
        let Some(costs) = &self.costs else {
            return Err(LineRefusal::Has(Kind::OutOfOrder));
        };
        if self.ended {
            return Err(LineRefusal::Has(Kind::OutOfOrder));
        }
        if self.calls.len() >= MOST_CALLS {
            return Err(LineRefusal::Has(Kind::Miscounted));
        }
        if lacks_obtain(&call, self.obtains) {
            return Err(LineRefusal::Has(Kind::NoObtain));
        }
        let cost = cost(costs, &call);
        if cost > self.room {
            return Err(LineRefusal::Has(Kind::TooCostly));
        }
        if uses_any(self.stated_table(), &call) {
            return Err(LineRefusal::Has(Kind::UsesTable));
        }
        self.room -= cost;
        self.spent += cost;
        self.obtains += obtain_count(&call);
        self.calls.push(call)?;
        Ok(())
    }

    // Takes the END.
    fn take_end(&mut self) -> Result<(), LineRefusal<Kind>>
        requires { IsToTake self.now (statement.End) }
        ensures { (earlier : List Statement) → IsBehind earlier self.old → IsGoodStatement (sizes_behind earlier) (statement.End)
            → IsTaken result earlier (statement.End) self.new }
    {
        if self.is_closed() {
            return Err(LineRefusal::Has(Kind::OutOfOrder));
        }
        if self.task_count() < self.stated {
            return Err(LineRefusal::Has(Kind::Miscounted));
        }
        self.ended = true;
        Ok(())
    }

    // Moves the last task to the finished ones.
    fn finish(&mut self) -> Result<(), NoMemory>
        ensures tasks { OnOk result (self.new.finished.items ≡ self.old.finished.items ++ self.old.calls.items ∷ []) }
        ensures budgets { OnOk result (self.new.budgets.items ≡ self.old.budgets.items ++ self.old.spent ∷ []) }
        ensures fresh { OnOk result ((self.new.calls.items ≡ []) × ((self.new.spent ≡ 0) × (self.new.obtains ≡ 0))) }
        ensures others { OnOk result ((self.new.stated ≡ self.old.stated) × ((self.new.owners ≡ self.old.owners)
            × ((self.new.exits ≡ self.old.exits) × ((self.new.costs ≡ self.old.costs)
            × ((self.new.room ≡ self.old.room) × ((self.new.ended ≡ self.old.ended) × (self.new.table ≡ self.old.table))))))) }
    {
        let calls = std::mem::replace(&mut self.calls, Vec::new(self.alloc));
        self.finished.push(CallList { calls })?;
        self.budgets.push(self.spent)?;
        self.spent = 0;
        self.obtains = 0;
        Ok(())
    }

    // The script that all lines have stated, of which END was the last.
    fn script(mut self) -> Result<Script, NoMemory>
        requires { (statements : List Statement) × (IsBehind statements self × (self.ended ≡ true)) }
        ensures { (statements : List Statement) → IsBehind statements self → IfOk result (λ s. script_data s ≡ script_in statements) }
    {
        self.finish()?;
        Ok(Script {
            config: with_budgets(
                self.alloc,
                self.stated,
                self.owners,
                self.exits,
                self.budgets,
            )?,
            tasks: self.finished,
            table: self.table,
        })
    }
}

// Whether a target is not above its source.
fn is_downward(source: u32, targets: &[u32]) -> bool
    ensures { result ≡ leads_down (statement.Exit source targets.now) }
{
    targets.iter().any(|target| *target <= source)
}

// Whether a call names an OBTAIN past the task's first `obtains` ones, or number 0.
fn lacks_obtain(call: &Call, obtains: u32) -> bool
    ensures { (calls : List Call) → count_by is_obtain calls ≡ obtains → result ≡ is_no_obtain calls (obtain_meant call.now) }
{
    match call {
        Call::Check(k) => *k < 1 || *k > obtains,
        Call::Free { obtain, .. } => *obtain < 1 || *obtain > obtains,
        _ => false,
    }
}

// 1 if a call is an OBTAIN, otherwise 0.
fn obtain_count(call: &Call) -> u32
    ensures { result ≡ count_by is_obtain (call.now ∷ []) }
{
    match call {
        Call::Obtain { .. } => 1,
        _ => 0,
    }
}
