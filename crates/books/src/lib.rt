// The books of a card in characters, in lent slices: eight fields with single spaces.
#![tactic(auto)]

ghost use Rattle.std.specs.Prelude.{[], ◌∷◌, ◌++◌, ◌+◌, ◌≤◌, length};
ghost use Rattle.text.specs.Shown.{Adds};
ghost use Rattle.decimal.specs.Decimal.{decimal, signed_decimal};
ghost use Rattle.wire.specs.Bytes.{Shows};
ghost use Rattle.tables.specs.Choice.{pick};
ghost use Rattle.chains.specs.Chain.{is_open};
ghost use Rattle.books.specs.Books.{field, pending_letters, stage_text, figures_text, marks_text, books_in};

use chains::Chain;
use channel::Stage;
use logfile::Log;
use purse::Purse;

// Places enough for any books.
pub const ROOM: usize = 96;

// What the books of a card tell of: its value file, its log, its session and its chain.
#[derive(Clone, Copy)]
pub struct Books {
    pub purse: Purse,
    pub log: Log,
    pub stage: Stage,
    pub chain: Chain,
}

// Lays a character behind what is there.
fn add_char(letter: u8, at: usize, answer: &mut [u8]) -> usize
    requires { at + 1 ≤ length answer.old }
    ensures { Adds (letter ∷ []) answer.old at answer.new result }
{
    let one = [letter];
    wire::lay(answer, at, &one);
    at + 1
}

fn add_number(n: u32, at: usize, answer: &mut [u8]) -> usize
    requires { at + 10 ≤ length answer.old }
    ensures adds { Adds (decimal n) answer.old at answer.new result }
    ensures upper_bound { result ≤ at + 10 }
{
    at + decimal::put_decimal(n, &mut answer[at..])
}

// Lays a number and a character behind it.
fn add_decimal(n: u32, end: u8, at: usize, answer: &mut [u8]) -> usize
    requires { at + 11 ≤ length answer.old }
    ensures adds { Adds (decimal n ++ end ∷ []) answer.old at answer.new result }
    ensures upper_bound { result ≤ at + 11 }
{
    let a = add_number(n, at, answer);
    add_char(end, a, answer)
}

fn add_signed(z: i32, at: usize, answer: &mut [u8]) -> usize
    requires { at + 12 ≤ length answer.old }
    ensures adds { Adds (field (signed_decimal z)) answer.old at answer.new result }
    ensures upper_bound { result ≤ at + 12 }
{
    let end = at + decimal::put_signed(z, &mut answer[at..]);
    add_char(b' ', end, answer)
}

// Lays a letter behind what is there, where the flag says so.
fn add_letter(flag: bool, letter: u8, at: usize, answer: &mut [u8]) -> usize
    requires { at + 1 ≤ length answer.old }
    ensures adds { Adds (pick flag (letter ∷ []) []) answer.old at answer.new result }
    ensures upper_bound { result ≤ at + 1 }
{
    if flag {
        return add_char(letter, at, answer);
    }
    at
}

// A real session's key and counter.
fn add_real(key: u8, counter: u16, at: usize, answer: &mut [u8]) -> usize
    requires { at + 21 ≤ length answer.old }
    ensures { Adds (decimal key ++ 0x3A ∷ [] ++ decimal counter) answer.old at answer.new result }
{
    let a = add_decimal(key as u32, b':', at, answer);
    add_number(counter as u32, a, answer)
}

// The session, or `-`.
fn add_stage(stage: Stage, at: usize, answer: &mut [u8]) -> usize
    requires { at + 21 ≤ length answer.old }
    ensures { Adds (stage_text stage) answer.old at answer.new result }
{
    match stage {
        Stage::Closed => add_char(b'-', at, answer),
        Stage::Bench(k) => add_number(k as u32, at, answer),
        Stage::Waiting(k) => add_decimal(k as u32, b'?', at, answer),
        Stage::Real(k, n) => add_real(k, n, at, answer),
    }
}

// Committed and pending value, committed and pending allowance, the open transaction's Debit sum.
fn put_figures(purse: Purse, answer: &mut [u8]) -> usize
    requires { 96 ≤ length answer.old }
    ensures adds { Adds (figures_text purse) answer.old 0 answer.new result }
    ensures upper_bound { result ≤ 57 }
{
    let a = add_signed(purse.value, 0, answer);
    let b = add_signed(purse.pending, a, answer);
    let c = add_decimal(purse.allowance, b' ', b, answer);
    let d = add_decimal(purse.left, b' ', c, answer);
    add_decimal(purse.debits, b' ', d, answer)
}

impl Books {
    // What is pending, as letters, or `-`.
    fn add_pending(self, at: usize, answer: &mut [u8]) -> usize
        requires { at + 6 ≤ length answer.old }
        ensures adds { Adds (field (pending_letters self.purse.moved self.log.adds self.log.clears (is_open self.chain))) answer.old at answer.new result }
        ensures upper_bound { result ≤ at + 6 }
    {
        let value = self.purse.moved;
        let entry = self.log.adds;
        let clear = self.log.clears;
        let write = self.chain.left != 0;
        let a = add_letter(value, b'v', at, answer);
        let b = add_letter(entry, b'n', a, answer);
        let c = add_letter(clear, b'c', b, answer);
        let d = add_letter(write, b'w', c, answer);
        let e = add_letter(!(value | entry | clear | write), b'-', d, answer);
        add_char(b' ', e, answer)
    }

    // The number of entries, what is pending, the session.
    fn add_marks(self, at: usize, answer: &mut [u8]) -> usize
        requires { (at ≤ 57) × (96 ≤ length answer.old) }
        ensures { Adds (marks_text self) answer.old at answer.new result }
    {
        let a = add_decimal(self.log.count as u32, b' ', at, answer);
        let b = self.add_pending(a, answer);
        add_stage(self.stage, b, answer)
    }

    // Lays the books over the front of answer and answers the number of characters; nothing and 0 where answer has fewer than ROOM places.
    pub fn put(self, answer: &mut [u8]) -> usize
        ensures { Shows (books_in (length answer.old) self) answer.old answer.new result }
    {
        if answer.len() < ROOM {
            return 0;
        }
        let a = put_figures(self.purse, answer);
        self.add_marks(a, answer)
    }
}
