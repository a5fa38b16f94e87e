ghost use Rattle.std.specs.Prelude.{◌≡◌, ◌^◌, ◌<◌, ◌≤◌, ◌↔◌, true, IsSome, IfSome};
ghost use Rattle.br_model.specs.Name.{is_letter};

use std::marker::Model;

/// The greatest index of a file in its session: 2^31 - 1.
pub const MAX_INDEX: u32 = 2_147_483_647;

/// The number of a file in its session: from 1 to 2^31 - 1.
#[derive(Clone, Copy, Debug, PartialEq, Eq, PartialOrd, Ord)]
pub struct FileIndex {
    number: u32,
}

impl Model for FileIndex {
    ghost use Rattle.std.specs.Prelude.{ℕ, ◌^◌, ◌<◌, ◌≤◌};

    ghost Value = { ℕ };

    ghost view = { λ i. i.number };

    ghost invariant = { λ i. (1 ≤ i.number) × (i.number < 2 ^ 31) };

    ghost inverse = { λ n. record { number = n } };
}

impl FileIndex {
    /// Makes the index with this number, if it is in range.
    pub fn new(number: u32) -> Option<FileIndex>
        ensures valid { IsSome result ↔ ((1 ≤ number) × (number < 2 ^ 31)) }
        ensures value { IfSome result (λ index. index ≡ number) }
    {
        if 1 <= number && number <= MAX_INDEX {
            Some(FileIndex { number })
        } else {
            None
        }
    }

    /// Returns the number.
    pub fn get(self) -> u32
        ensures same { result ≡ self }
        ensures from_one { 1 ≤ self }
        ensures to_greatest { self < 2 ^ 31 }
    {
        self.number
    }
}

/// The number of a job: from 1.
#[derive(Clone, Copy, Debug, PartialEq, Eq, PartialOrd, Ord)]
pub struct JobId {
    id: u32,
}

impl Model for JobId {
    ghost use Rattle.std.specs.Prelude.{ℕ, ◌≤◌};

    ghost Value = { ℕ };

    ghost view = { λ j. j.id };

    ghost invariant = { λ j. 1 ≤ j.id };

    ghost inverse = { λ n. record { id = n } };
}

impl JobId {
    /// Makes the job's number, if it is not 0.
    pub fn new(id: u32) -> Option<JobId>
        ensures valid { IsSome result ↔ (1 ≤ id) }
        ensures value { IfSome result (λ job. job ≡ id) }
    {
        if 1 <= id { Some(JobId { id }) } else { None }
    }

    /// Returns the number.
    pub fn get(self) -> u32
        ensures same { result ≡ self }
        ensures from_one { 1 ≤ self }
    {
        self.id
    }
}

/// One ASCII letter: the type, the level or the status of a job.
#[derive(Clone, Copy, Debug)]
pub struct Letter {
    byte: u8,
}

impl Model for Letter {
    ghost use Rattle.std.specs.Prelude.{◌≡◌, ℕ, true};
    ghost use Rattle.br_model.specs.Name.{is_letter};

    ghost Value = { ℕ };

    ghost view = { λ l. l.byte };

    ghost invariant = { λ l. is_letter l.byte ≡ true };

    ghost inverse = { λ n. record { byte = n } };
}

impl Letter {
    /// Makes the letter with this ASCII code, if it is one.
    pub fn new(byte: u8) -> Option<Letter>
        ensures valid { IsSome result ↔ (is_letter byte ≡ true) }
        ensures value { IfSome result (λ letter. letter ≡ byte) }
    {
        if byte.is_ascii_alphabetic() {
            Some(Letter { byte })
        } else {
            None
        }
    }

    /// Returns the letter's ASCII code.
    pub fn get(self) -> u8
        ensures same { result ≡ self }
        ensures valid { is_letter self ≡ true }
    {
        self.byte
    }
}
