// The command table, and which kind of file suits a command.
#![tactic(auto)]

pub mod table;

ghost use Rattle.std.specs.Prelude.{◌≡◌};
ghost use Rattle.columns.specs.Table.{on_data, on_value, on_log, on_file, names_file, ends, by_read, by_write, suits};
ghost use Rattle.columns.specs.Row.{row_of};

use roles::Role;

// A command's row of the command table.
#[derive(Clone, Copy)]
pub struct Row {
    // It acts on a file; it names a file; it ends the transaction and names none.
    pub file: bool,
    pub names: bool,
    pub ends: bool,
    // Read grants it, Write grants it; ReadWrite grants every command on a file.
    pub read: bool,
    pub write: bool,
}

impl Row {
    #[tactic(auto, unfolding(crate::specs::Row::row_of))]
    pub fn of_command(ins: u8) -> Row
        ensures { result ≡ row_of ins }
    {
        Row {
            file: on_file(ins),
            names: names_file(ins),
            ends: ends_all(ins),
            read: by_read(ins),
            write: by_write(ins),
        }
    }
}

// The columns compare without a branch, so that a caller makes those that it asks for in line: as matches! the row is a call that
// makes all five, and an event takes an eighth more instructions.
fn on_data(ins: u8) -> bool
    ensures { result ≡ on_data ins }
{
    (ins == table::READ_DATA) | (ins == table::WRITE_DATA)
}

fn on_value(ins: u8) -> bool
    ensures { result ≡ on_value ins }
{
    (ins == table::GET_VALUE)
        | (ins == table::CREDIT)
        | (ins == table::DEBIT)
        | (ins == table::LIMITED_CREDIT)
}

fn on_log(ins: u8) -> bool
    ensures { result ≡ on_log ins }
{
    (ins == table::READ_RECORDS) | (ins == table::WRITE_RECORD) | (ins == table::CLEAR_RECORD_FILE)
}

#[tactic(auto, unfolding(crate::specs::Table::on_file))]
fn on_file(ins: u8) -> bool
    ensures { result ≡ on_file ins }
{
    on_data(ins) | on_value(ins) | on_log(ins)
}

// The commands on a file, and GetFileSettings.
#[tactic(auto, unfolding(crate::specs::Table::names_file))]
fn names_file(ins: u8) -> bool
    ensures { result ≡ names_file ins }
{
    let file = on_file(ins);
    file | (ins == table::GET_FILE_SETTINGS)
}

// Commit and abort, which name no file.
fn ends_all(ins: u8) -> bool
    ensures { result ≡ ends ins }
{
    (ins == table::COMMIT_TRANSACTION) | (ins == table::ABORT_TRANSACTION)
}

fn by_read(ins: u8) -> bool
    ensures { result ≡ by_read ins }
{
    (ins == table::READ_DATA)
        | (ins == table::GET_VALUE)
        | (ins == table::DEBIT)
        | (ins == table::READ_RECORDS)
}

fn by_write(ins: u8) -> bool
    ensures { result ≡ by_write ins }
{
    (ins == table::WRITE_DATA)
        | (ins == table::GET_VALUE)
        | (ins == table::DEBIT)
        | (ins == table::LIMITED_CREDIT)
        | (ins == table::WRITE_RECORD)
}

// Whether a file of this role is of the kind on which the command acts.
#[tactic(auto, unfolding(crate::specs::Table::suits))]
pub fn suits_file(ins: u8, role: Role) -> bool
    ensures { result ≡ suits ins role }
{
    let data = on_data(ins);
    let value = on_value(ins);
    let log = on_log(ins);
    (data & role.is_data()) | (value & role.is_value()) | (log & role.is_log())
}
