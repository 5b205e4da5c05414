// What personalisation fixes, which file a number names, and what is granted.
#![tactic(auto)]

ghost use Rattle.std.specs.Prelude.{◌≡◌};
ghost use Rattle.settings.specs.Settings.{unchosen, absent, alike, file_at, role_of, named_by, nothing, access_by, rights_broken, number_above, number_twice};

use access::Access;
use columns::{Row, table};
use limits::Limits;
use roles::Role;

// Of one file: its number, its rights, and whether it is in MAC mode; else it is plain.
#[derive(Clone, Copy)]
pub struct FileSettings {
    pub rights: u16,
    pub number: u8,
    pub maced: bool,
}

#[derive(Clone, Copy)]
pub struct Settings {
    // The two long data files, the short one, the value file, the log.
    pub first: FileSettings,
    pub second: FileSettings,
    pub short: FileSettings,
    pub value: FileSettings,
    pub log: FileSettings,
    pub limits: Limits,
    // LimitedCredit is on; GetValue is free.
    pub limited: bool,
    pub free: bool,
}

// What a number names: the role, and what is fixed of the file.
#[derive(Clone, Copy)]
pub struct Named {
    pub role: Role,
    pub file: FileSettings,
}

impl Named {
    // No file.
    pub fn nothing() -> Named
        ensures { result ≡ nothing }
    {
        Named {
            role: Role::NoFile,
            file: FileSettings::absent(),
        }
    }
}

impl FileSettings {
    // The largest number of a file.
    pub const LARGEST_NUMBER: u8 = 0x1F;

    // What stands for the file that no number names: nobody's, and plain.
    fn absent() -> FileSettings
        ensures { result ≡ absent }
    {
        FileSettings::unchosen(Role::NoFile, 0xFFFF)
    }

    // A file with these rights whose number and mode were not chosen.
    fn unchosen(role: Role, rights: u16) -> FileSettings
        ensures { result ≡ unchosen role rights }
    {
        FileSettings {
            number: role.default_number(),
            rights,
            maced: false,
        }
    }
}

impl Settings {
    // The same rights for every file, default numbers, plain modes, and GetValue not free.
    #[tactic(auto, unfolding(crate::specs::Settings::alike))]
    pub fn alike(rights: u16, limits: Limits, limited: bool) -> Settings
        ensures { result ≡ alike rights limits limited }
    {
        Settings {
            first: FileSettings::unchosen(Role::FirstLong, rights),
            second: FileSettings::unchosen(Role::SecondLong, rights),
            short: FileSettings::unchosen(Role::ShortData, rights),
            value: FileSettings::unchosen(Role::ValueFile, rights),
            log: FileSettings::unchosen(Role::LogFile, rights),
            limits,
            limited,
            free: false,
        }
    }

    // What the number n names. The file comes with the role, in one search: a choice by the role later would be a jump by a table.
    #[tactic(auto, unfolding(crate::specs::Settings::role_of, tables::specs::Choice::pick))]
    pub fn named(self, n: u8) -> Named
        ensures { result ≡ named_by self (role_of self n) }
    {
        if n == self.first.number {
            let file = self.first;
            return Named {
                role: Role::FirstLong,
                file,
            };
        }
        if n == self.second.number {
            let file = self.second;
            return Named {
                role: Role::SecondLong,
                file,
            };
        }
        if n == self.short.number {
            let file = self.short;
            return Named {
                role: Role::ShortData,
                file,
            };
        }
        if n == self.value.number {
            let file = self.value;
            return Named {
                role: Role::ValueFile,
                file,
            };
        }
        if n == self.log.number {
            let file = self.log;
            return Named {
                role: Role::LogFile,
                file,
            };
        }
        Named::nothing()
    }

    // What is fixed of the file of a role.
    pub fn file(self, role: Role) -> FileSettings
        ensures { result ≡ file_at self role }
    {
        match role {
            Role::FirstLong => self.first,
            Role::SecondLong => self.second,
            Role::ShortData => self.short,
            Role::ValueFile => self.value,
            Role::LogFile => self.log,
            Role::NoFile => FileSettings::absent(),
        }
    }

    // Whether the command may be used on a file with these rights under this session.
    #[tactic(auto, unfolding(columns::specs::Row::row_of))]
    pub fn access_by(self, rights: u16, session: Option<u8>, ins: u8) -> Access
        ensures { result ≡ access_by self rights session ins }
    {
        let row = Row::of_command(ins);
        access::decide(
            rights,
            session,
            row.read,
            row.write,
            (ins == table::GET_VALUE) & self.free,
        )
    }

    // Whether a rights nibble is 5 to Dh.
    #[tactic(auto, unfolding(crate::specs::Settings::rights_broken))]
    pub fn has_wrong_rights(self) -> bool
        ensures { result ≡ rights_broken self }
    {
        [
            self.first.rights,
            self.second.rights,
            self.short.rights,
            self.value.rights,
            self.log.rights,
        ]
        .iter()
        .any(|rights| !access::rights_are_sound(*rights))
    }

    // Whether a file's number is above 1Fh.
    #[tactic(auto, unfolding(crate::specs::Settings::number_above))]
    pub fn has_number_above(self) -> bool
        ensures { result ≡ number_above self }
    {
        [
            self.first.number,
            self.second.number,
            self.short.number,
            self.value.number,
            self.log.number,
        ]
        .iter()
        .any(|number| FileSettings::LARGEST_NUMBER < *number)
    }

    // Whether two files have the same number. The ten pairs stand as a list: two loops would say less, and ask each with a branch.
    #[tactic(auto, unfolding(crate::specs::Settings::number_twice))]
    pub fn has_number_twice(self) -> bool
        ensures { result ≡ number_twice self }
    {
        let first = self.first.number;
        let second = self.second.number;
        let short = self.short.number;
        let value = self.value.number;
        let log = self.log.number;
        (first == second)
            | (first == short)
            | (first == value)
            | (first == log)
            | (second == short)
            | (second == value)
            | (second == log)
            | (short == value)
            | (short == log)
            | (value == log)
    }
}
