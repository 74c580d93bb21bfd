//! Which operations may stand where.
ghost use Rattle.std.specs.Prelude.{◌≡◌, ◌≤◌, ◌∷◌, Bool, List, length};
ghost use Rattle.std.specs.List.{prefix_len};
ghost use Rattle.handler_script.specs.Accepts.{is_allowed, is_balanced, is_known, is_no_hold, is_sound_skip, nothing_forbidden, op_fault, open_after, script_fault};
ghost use Rattle.handler_script.specs.declared.op.Op.{Op};

use crate::{Op, ScriptFault};
use acpi_regs::Side;

/// Which operations a machine forbids: those that name an event which they may not name, and a push where there is no
/// controller. A script alone does not know the machine.
pub trait EventRules {
    /// The machine forbids the operation.
    ghost forbids: { Self → Op → Bool };

    /// Whether the machine forbids the operation.
    fn forbids(&self, op: Op) -> bool
        ensures { result ≡ forbids self.now op };
}

/// Every event may be named.
pub(crate) struct AnyEvent;

impl EventRules for AnyEvent {
    ghost forbids = { λ _. nothing_forbidden };

    fn forbids(&self, _: Op) -> bool {
        false
    }
}

fn is_known(op: Op, count: usize) -> bool
    ensures { result ≡ is_known count op }
{
    match op {
        Op::Read(field) | Op::Write(field, _) | Op::Add(field, _) => usize::from(field) < count,
        _ => true,
    }
}

fn is_no_hold(op: Op) -> bool
    ensures { result ≡ is_no_hold op }
{
    !matches!(op, Op::Hold | Op::Free)
}

/// How many operations stand before the first hold or free, all of them where there is none.
fn run_of(ops: &[Op]) -> usize
    ensures { result ≡ prefix_len is_no_hold ops.now }
{
    ops.iter().take_while(|op| is_no_hold(**op)).count()
}

/// The same for the operations behind the first of some, where it is `run` for all of them. They are looked at only
/// where the first is a hold or a free, so that a script is gone through once.
fn run_behind(run: usize, rest: &[Op]) -> usize
    ensures { (o : Op) → run ≡ prefix_len is_no_hold (o ∷ rest.now) → result ≡ prefix_len is_no_hold rest.now }
{
    match run.checked_sub(1) {
        Some(left) => left,
        None => run_of(rest),
    }
}

/// As many operations follow as a skip passes over, at least one, and none of them is a hold or a free: so many stand
/// before the first of these.
fn is_sound_skip(op: Op, run: usize) -> bool
    ensures { (rest : List Op) → run ≡ prefix_len is_no_hold rest → result ≡ is_sound_skip op rest }
{
    match op {
        Op::Skip(_, count) => count > 0 && usize::from(count) <= run,
        _ => true,
    }
}

fn is_allowed(op: Op, side: Side) -> bool
    ensures { result ≡ is_allowed side op }
{
    match side {
        Side::Os => !matches!(op, Op::Raise(_) | Op::Assert(_) | Op::Push(_)),
        Side::Firmware => !matches!(op, Op::Notify(..) | Op::Up(_) | Op::Down(_)),
    }
}

fn is_balanced(op: Op, held: bool) -> bool
    ensures { result ≡ is_balanced held op }
{
    match op {
        Op::Hold => !held,
        Op::Free => held,
        _ => true,
    }
}

/// The fault of an operation, where a hold is open or not, and so many operations stand behind it before the next
/// hold or free.
fn op_fault<R: EventRules>(
    rules: &R,
    side: Side,
    count: usize,
    held: bool,
    place: u16,
    op: Op,
    run: usize,
) -> Option<ScriptFault>
    ensures { (rest : List Op) → run ≡ prefix_len is_no_hold rest →
        result ≡ op_fault (R.forbids rules.now) side count held place op rest }
{
    if !is_allowed(op, side) || rules.forbids(op) {
        return Some(ScriptFault::NotAllowed(place));
    }
    if !is_known(op, count) {
        return Some(ScriptFault::UnknownField(place));
    }
    if !is_sound_skip(op, run) {
        return Some(ScriptFault::BadSkip(place));
    }
    if is_balanced(op, held) {
        None
    } else {
        Some(ScriptFault::Unbalanced(place))
    }
}

/// The place of the hold that is open after an operation.
fn open_after(place: u16, op: Op, hold: Option<u16>) -> Option<u16>
    ensures { result ≡ open_after place op hold }
{
    match op {
        Op::Hold => Some(place),
        Op::Free => None,
        _ => hold,
    }
}

/// The fault of the first faulty operation; a hold that is open at the end comes after every other fault.
pub(crate) fn first_fault<R: EventRules>(
    rules: &R,
    side: Side,
    count: usize,
    ops: &[Op],
) -> Option<ScriptFault>
    requires { length ops.now ≤ 4096 }
    ensures { result ≡ script_fault (R.forbids rules.now) side count ops.now }
{
    let mut hold = None;
    let mut run = run_of(ops);
    for (i, op) in ops.iter().enumerate() {
        let place = i as u16;
        let (_, rest) = ops.split_at(i + 1);
        run = run_behind(run, rest);
        let fault = op_fault(rules, side, count, hold.is_some(), place, *op, run);
        if fault.is_some() {
            return fault;
        }
        hold = open_after(place, *op, hold);
    }
    hold.map(ScriptFault::Unbalanced)
}
