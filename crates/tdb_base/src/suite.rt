//! How the records of a partition are enciphered.
ghost use Rattle.std.specs.Prelude.{◌≡◌, ◌<◌, ◌↔◌, IfSome, IfNone, IsNone};

/// A cipher suite. Under each one a record has a digest; under `Plain` its bytes aren't hidden.
#[derive(Clone, Copy, Debug, PartialEq, Eq)]
pub enum Suite {
    /// No cipher.
    Plain,
    /// AES with keys of 16 bytes, in cipher block chaining.
    Aes128,
    /// AES with keys of 32 bytes, in cipher block chaining.
    Aes256,
}

impl Suite {
    ghost use Rattle.tdb_base.specs.SuiteNumber.{suite_number, suite_of_number, suite_word};

    /// The number that stands for the suite in each format.
    pub fn number(self) -> u32
        ensures { result ≡ suite_number self }
    {
        match self {
            Suite::Plain => 0,
            Suite::Aes128 => 1,
            Suite::Aes256 => 2,
        }
    }

    /// The suite that a number stands for.
    pub fn of_number(number: u32) -> Option<Suite>
        ensures found { IfSome result (λ suite. suite_number suite ≡ number) }
        ensures none { IsNone result ↔ (2 < number) }
        ensures value { result ≡ suite_of_number number }
    {
        match number {
            0 => Some(Suite::Plain),
            1 => Some(Suite::Aes128),
            2 => Some(Suite::Aes256),
            _ => None,
        }
    }

    /// The suite's word in a command.
    pub fn word(self) -> &'static str
        ensures { result.now ≡ suite_word self }
    {
        match self {
            Suite::Plain => "plain",
            Suite::Aes128 => "aes128",
            Suite::Aes256 => "aes256",
        }
    }
}
