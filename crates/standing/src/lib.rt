// The standing rules, which every card keeps, and the bench refusal of an order that would break one.
#![tactic(auto)]

ghost use Rattle.std.specs.Prelude.{◌≡◌};
ghost use Rattle.standing.specs.Rules.{unequal, broken_by, order_refusal};
ghost use Rattle.standing.specs.Parts.{value_broken, log_broken, chain_broken};

use chains::Chain;
use channel::Stage;
use limits::Limits;
use logfile::Log;
use purse::Purse;
use refusals::Refusal;
use settings::Settings;

// Whether the pending figures differ from the committed ones, or a Debit is noted.
fn unequal(purse: Purse) -> bool
    ensures { result ≡ unequal purse }
{
    (purse.value != purse.pending) | (purse.left != purse.allowance) | purse.debited
}

// Those of the value file; log_pending: a new entry or a clear is pending.
fn value_breaks(purse: Purse, limits: Limits, log_pending: bool) -> bool
    ensures { result ≡ value_broken limits purse log_pending }
{
    !limits.hold(purse.value)
        | !limits.hold(purse.pending)
        | (Purse::LARGEST < purse.allowance)
        | (purse.allowance < purse.left)
        | (Purse::LARGEST < purse.debits)
        | (!purse.debited & (purse.debits != 0))
        | (!(purse.moved | log_pending) & unequal(purse))
}

// Those of the log.
fn log_breaks(log: Log) -> bool
    ensures { result ≡ log_broken log }
{
    (Log::MOST < log.count) | !(log.place < Log::MOST) | (log.adds & log.clears)
}

// Those of an open chain.
fn chain_breaks(stage: Stage, chain: Chain) -> bool
    ensures { result ≡ chain_broken stage chain }
{
    let sound = chain.is_sound();
    let waits = stage.is_waiting();
    !sound | ((chain.left != 0) & waits)
}

// Whether a card of these parts breaks a standing rule.
pub fn breaks(settings: Settings, purse: Purse, log: Log, stage: Stage, chain: Chain) -> bool
    ensures { result ≡ broken_by settings purse log stage chain }
{
    let limits = settings.limits;
    let rights = settings.has_wrong_rights();
    let crossed = limits.are_crossed();
    let above = settings.has_number_above();
    let twice = settings.has_number_twice();
    let known = stage.is_sound();
    let in_log = log_breaks(log);
    let in_value = value_breaks(purse, limits, log.adds | log.clears);
    let in_chain = chain_breaks(stage, chain);
    rights | crossed | above | twice | !known | in_log | in_value | in_chain
}

// The bench refusal of a personalisation, if any: the first of the order's faults names it.
pub fn refusal(settings: Settings, value: i32) -> Option<Refusal>
    ensures { result ≡ order_refusal settings value }
{
    let limits = settings.limits;
    let first = reasons::first(&[
        (settings.has_wrong_rights(), Refusal::WrongRights),
        (limits.are_crossed(), Refusal::CrossedLimits),
        (!limits.hold(value), Refusal::ValueOutside),
        (settings.has_number_above(), Refusal::NumberAbove),
        (settings.has_number_twice(), Refusal::NumberTwice),
    ]);
    first.err()
}
