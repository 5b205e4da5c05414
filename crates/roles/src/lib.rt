// The five files of a card by what they are for. Their numbers are the client's; sizes and kinds belong to the roles.
#![tactic(auto)]

ghost use Rattle.std.specs.Prelude.{◌≡◌};
ghost use Rattle.roles.specs.Roles.{place_of, is_data, is_value, is_log, is_file, size_of, default_number};

// The two long data files, the short one, the value file, the log; and what a number names that no file of the card has.
#[derive(Clone, Copy, PartialEq, Eq)]
pub enum Role {
    FirstLong,
    SecondLong,
    ShortData,
    ValueFile,
    LogFile,
    NoFile,
}

impl Role {
    // The bytes of a long data file, and of the short one.
    pub const LONG: usize = 256;

    pub const SHORT: usize = 32;

    // Its place in the order of the roles, said for each: as a cast it would hang on where a variant stands.
    pub fn place(self) -> u8
        ensures { result ≡ place_of self }
    {
        match self {
            Role::FirstLong => 0,
            Role::SecondLong => 1,
            Role::ShortData => 2,
            Role::ValueFile => 3,
            Role::LogFile => 4,
            Role::NoFile => 5,
        }
    }

    pub fn is_data(self) -> bool
        ensures { result ≡ is_data self }
    {
        matches!(self, Role::FirstLong | Role::SecondLong | Role::ShortData)
    }

    pub fn is_value(self) -> bool
        ensures { result ≡ is_value self }
    {
        matches!(self, Role::ValueFile)
    }

    pub fn is_log(self) -> bool
        ensures { result ≡ is_log self }
    {
        matches!(self, Role::LogFile)
    }

    pub fn is_file(self) -> bool
        ensures { result ≡ is_file self }
    {
        !matches!(self, Role::NoFile)
    }

    // The room of a data file; 0 for all else.
    pub fn size(self) -> usize
        ensures { result ≡ size_of self }
    {
        match self {
            Role::FirstLong | Role::SecondLong => Role::LONG,
            Role::ShortData => Role::SHORT,
            Role::ValueFile | Role::LogFile | Role::NoFile => 0,
        }
    }

    // The number that the file has where an order gives none.
    pub fn default_number(self) -> u8
        ensures { result ≡ default_number self }
    {
        match self {
            Role::FirstLong => 0x00,
            Role::SecondLong => 0x04,
            Role::ShortData => 0x1F,
            Role::ValueFile => 0x03,
            Role::LogFile => 0x01,
            Role::NoFile => 0xFF,
        }
    }
}
