//! The table of commands: a row for each, with its keys and which of them name files that it reads or writes; the desk's row; and a row for
//! each key.
ghost use Rattle.std.specs.Prelude.{◌≡◌};
ghost use Rattle.command_line.specs.Table.{row_of, desk_row, all_commands, key_name, kind_of};

use std::marker::Model;

/// A command of the command line.
#[derive(Clone, Copy)]
pub enum Command {
    Align,
    Check,
    Mir,
    Conflict,
    Lattice,
    Explain,
    Report,
    Parts,
    Part,
    Join,
    Trial,
}

/// A key of the command line.
#[derive(Clone, Copy)]
pub enum Key {
    In,
    Cert,
    Nonempty,
    Sibling,
    Coverage,
    Nodes,
    Worlds,
    Token,
    Resume,
    Kinds,
    Seed,
    Size,
    Left,
    Right,
    Set,
    Count,
    Until,
    Certs,
    Script,
}

/// What a key's value is.
#[derive(Clone, Copy)]
pub enum KeyKind {
    /// `on` or `off`.
    Switch,
    /// The name of a file.
    FileName,
    /// Names of files, with commas between them.
    FileNames,
    /// Names of reports, with commas between them.
    ReportNames,
    /// Any bytes.
    Text,
    /// Letters of relations.
    Letters,
    /// A number that isn't 0.
    Limit,
    /// A number in a range.
    Number { least: u64, most: u64 },
    /// An even number in a range.
    EvenNumber { least: u64, most: u64 },
}

/// A row of the table, with the keys that words may give.
#[derive(Drop)]
pub struct Row {
    pub name: &'static str,
    /// The keys that have to be given.
    pub required: &'static [Key],
    /// The keys that may be given besides.
    pub optional: &'static [Key],
    /// The keys of files that are read.
    pub reads: &'static [Key],
    /// The keys of files that are written.
    pub writes: &'static [Key],
}

impl Model for Row {
    ghost use Rattle.command_line.specs.Table.{Row};

    ghost Value = { Row };

    ghost view = { λ row. record { name = row.name.now; required = row.required.now; optional = row.optional.now; reads = row.reads.now; writes = row.writes.now } };
}

static COMMANDS: [Command; 11] = [
    Command::Align,
    Command::Check,
    Command::Mir,
    Command::Conflict,
    Command::Lattice,
    Command::Explain,
    Command::Report,
    Command::Parts,
    Command::Part,
    Command::Join,
    Command::Trial,
];

static IN: [Key; 1] = [Key::In];

static CERT: [Key; 1] = [Key::Cert];

static IN_CERT: [Key; 2] = [Key::In, Key::Cert];

static IN_LEFT_RIGHT_SET: [Key; 4] = [Key::In, Key::Left, Key::Right, Key::Set];

static IN_KINDS: [Key; 2] = [Key::In, Key::Kinds];

static IN_COUNT_TOKEN: [Key; 3] = [Key::In, Key::Count, Key::Token];

static IN_CERTS: [Key; 2] = [Key::In, Key::Certs];

static IN_SCRIPT: [Key; 2] = [Key::In, Key::Script];

static IN_RESUME: [Key; 2] = [Key::In, Key::Resume];

static IN_RESUME_UNTIL: [Key; 3] = [Key::In, Key::Resume, Key::Until];

static CERT_TOKEN: [Key; 2] = [Key::Cert, Key::Token];

static SEED_SIZE: [Key; 2] = [Key::Seed, Key::Size];

static SWITCHES: [Key; 3] = [Key::Nonempty, Key::Sibling, Key::Coverage];

static CERT_SWITCHES: [Key; 4] = [Key::Cert, Key::Nonempty, Key::Sibling, Key::Coverage];

static LISTING: [Key; 8] = [
    Key::Cert,
    Key::Nonempty,
    Key::Sibling,
    Key::Coverage,
    Key::Nodes,
    Key::Worlds,
    Key::Token,
    Key::Resume,
];

static SWITCHES_RESUME_UNTIL: [Key; 5] = [
    Key::Nonempty,
    Key::Sibling,
    Key::Coverage,
    Key::Resume,
    Key::Until,
];

static NONE: [Key; 0] = [];

impl Command {
    /// All of them, in the order of the table.
    pub fn all() -> &'static [Command]
        ensures { result.now ≡ all_commands }
    {
        &COMMANDS
    }

    /// The word that stands for it.
    pub fn name(self) -> &'static str
        ensures { result.now ≡ (row_of self).name }
    {
        match self {
            Command::Align => "align",
            Command::Check => "check",
            Command::Mir => "mir",
            Command::Conflict => "conflict",
            Command::Lattice => "lattice",
            Command::Explain => "explain",
            Command::Report => "report",
            Command::Parts => "parts",
            Command::Part => "part",
            Command::Join => "join",
            Command::Trial => "trial",
        }
    }

    /// The keys that have to be given.
    pub fn required(self) -> &'static [Key]
        ensures { result.now ≡ (row_of self).required }
    {
        match self {
            Command::Align | Command::Mir | Command::Conflict | Command::Lattice => &IN,
            Command::Check | Command::Part => &IN_CERT,
            Command::Explain => &IN_LEFT_RIGHT_SET,
            Command::Report => &IN_KINDS,
            Command::Parts => &IN_COUNT_TOKEN,
            Command::Join => &IN_CERTS,
            Command::Trial => &SEED_SIZE,
        }
    }

    /// The keys that may be given besides.
    pub fn optional(self) -> &'static [Key]
        ensures { result.now ≡ (row_of self).optional }
    {
        match self {
            Command::Align => &LISTING,
            Command::Check | Command::Explain | Command::Report | Command::Parts | Command::Join =>
                &SWITCHES,
            Command::Mir | Command::Conflict | Command::Lattice => &CERT_SWITCHES,
            Command::Part => &SWITCHES_RESUME_UNTIL,
            Command::Trial => &NONE,
        }
    }

    /// The keys of files that it reads.
    pub fn reads(self) -> &'static [Key]
        ensures { result.now ≡ (row_of self).reads }
    {
        match self {
            Command::Align => &IN_RESUME,
            Command::Check => &IN_CERT,
            Command::Mir
            | Command::Conflict
            | Command::Lattice
            | Command::Explain
            | Command::Report
            | Command::Parts => &IN,
            Command::Part => &IN_RESUME_UNTIL,
            Command::Join => &IN_CERTS,
            Command::Trial => &NONE,
        }
    }

    /// The keys of files that it writes.
    pub fn writes(self) -> &'static [Key]
        ensures { result.now ≡ (row_of self).writes }
    {
        match self {
            Command::Align => &CERT_TOKEN,
            Command::Mir | Command::Conflict | Command::Lattice | Command::Part => &CERT,
            Command::Check
            | Command::Explain
            | Command::Report
            | Command::Parts
            | Command::Join
            | Command::Trial => &NONE,
        }
    }

    /// Its row.
    pub fn row(self) -> Row
        ensures { result ≡ row_of self }
    {
        Row {
            name: self.name(),
            required: self.required(),
            optional: self.optional(),
            reads: self.reads(),
            writes: self.writes(),
        }
    }
}

/// The row of the desk, whose program has no commands.
pub fn desk_row() -> Row
    ensures { result ≡ desk_row }
{
    Row {
        name: "euler_desk",
        required: &IN_SCRIPT,
        optional: &SWITCHES,
        reads: &IN_SCRIPT,
        writes: &NONE,
    }
}

impl Key {
    /// How it is written.
    pub fn name(self) -> &'static str
        ensures { result.now ≡ key_name self }
    {
        match self {
            Key::In => "in",
            Key::Cert => "cert",
            Key::Nonempty => "nonempty",
            Key::Sibling => "sibling",
            Key::Coverage => "coverage",
            Key::Nodes => "nodes",
            Key::Worlds => "worlds",
            Key::Token => "token",
            Key::Resume => "resume",
            Key::Kinds => "kinds",
            Key::Seed => "seed",
            Key::Size => "size",
            Key::Left => "left",
            Key::Right => "right",
            Key::Set => "set",
            Key::Count => "count",
            Key::Until => "until",
            Key::Certs => "certs",
            Key::Script => "script",
        }
    }

    /// What its value is.
    pub fn kind(self) -> KeyKind
        ensures { result ≡ kind_of self }
    {
        match self {
            Key::In | Key::Cert | Key::Token | Key::Resume | Key::Until | Key::Script =>
                KeyKind::FileName,
            Key::Certs => KeyKind::FileNames,
            Key::Nonempty | Key::Sibling | Key::Coverage => KeyKind::Switch,
            Key::Nodes | Key::Worlds => KeyKind::Limit,
            Key::Kinds => KeyKind::ReportNames,
            Key::Seed => KeyKind::Number {
                least: 0,
                most: u64::MAX,
            },
            Key::Size => KeyKind::EvenNumber {
                least: 14,
                most: 256,
            },
            Key::Left | Key::Right => KeyKind::Text,
            Key::Set => KeyKind::Letters,
            Key::Count => KeyKind::Number {
                least: 1,
                most: 1000,
            },
        }
    }
}
