//! The keys of the two texts, and the table of what may stand at each.

ghost use Rattle.std.specs.Prelude.{◌≡◌};
ghost use Rattle.sim_config.specs.Keys.{name_of, rule_of};
ghost use Rattle.sim_config.specs.Faults as faults;

use guest_ram::MOST_BYTES;

/// A key of a text, or the text's value as a whole.
#[derive(Clone, Copy, Debug, PartialEq, Eq)]
pub enum Key {
    /// No key: the value as a whole.
    Top,
    /// `harts`: how many harts the machine has.
    Harts,
    /// `ram`: the length of RAM in bytes.
    Ram,
    /// `rom`: the length of the boot ROM in bytes.
    Rom,
    /// `slice`: how many steps a hart makes in a turn.
    Slice,
    /// `program`: the name of the program's file.
    Program,
    /// `taken`: how many bytes of the input the console's queue has taken.
    Taken,
    /// `tohost`: the address of the host window, or 0 for none.
    Tohost,
    /// `version`: the version of the meta text.
    Version,
}

/// Which of the two texts is read.
#[derive(Clone, Copy)]
pub(crate) enum Form {
    /// The configuration of a machine.
    Configuration,
    /// The meta text of a checkpoint.
    MetaText,
}

/// What a value at a key has to be.
#[derive(Clone, Copy)]
pub(crate) enum Kind {
    /// A number from the first to the second.
    Number(u64, u64),
    /// A number from the first to the second, and a multiple of 4,096.
    Pages(u64, u64),
    /// 0, or a multiple of 8 whose 8 bytes lie in RAM.
    Window,
    /// A text that is not empty.
    Text,
}

/// What may stand at a key.
#[derive(Clone, Copy)]
pub(crate) enum Rule {
    /// The key is not listed.
    Unlisted,
    /// The key may be left out.
    Optional(Kind),
    /// The key has to be there.
    Required(Kind),
}

/// The keys in the order of their faults.
pub(crate) const ORDER: [Key; 8] = [
    Key::Harts,
    Key::Ram,
    Key::Slice,
    Key::Program,
    Key::Tohost,
    Key::Rom,
    Key::Taken,
    Key::Version,
];

/// RAM has 64 KiB to 256 MiB, in whole pages of 4 KiB.
const RAM: Rule = Rule::Required(Kind::Pages(65_536, MOST_BYTES));

/// A hart makes 1 to 1,024 steps in a turn.
const SLICE: Rule = Rule::Required(Kind::Number(1, 1_024));

/// The table: the key's name, what may stand there in a configuration, and what in a meta text.
#[derive(Clone, Copy)]
struct Row(&'static str, Rule, Rule);

impl Key {
    /// The key's row of the table.
    fn row(self) -> Row
        ensures name { result.0.now ≡ name_of self }
        ensures configuration { result.1 ≡ rule_of Form.Configuration self }
        ensures meta_text { result.2 ≡ rule_of Form.MetaText self }
    {
        let needed = |least: u64, most: u64| Rule::Required(Kind::Number(least, most));
        match self {
            Key::Harts => Row("harts", needed(1, 8), needed(1, 8)),
            Key::Ram => Row("ram", RAM, RAM),
            Key::Slice => Row("slice", SLICE, SLICE),
            Key::Program => Row("program", Rule::Required(Kind::Text), Rule::Unlisted),
            Key::Tohost => Row(
                "tohost",
                Rule::Optional(Kind::Window),
                Rule::Required(Kind::Window),
            ),
            Key::Rom => Row("rom", Rule::Unlisted, needed(0, 131_072)),
            Key::Taken => Row("taken", Rule::Unlisted, needed(0, 1_000_000_000_000)),
            Key::Version => Row("version", Rule::Unlisted, needed(1, 1)),
            Key::Top => Row("", Rule::Unlisted, Rule::Unlisted),
        }
    }

    /// The key's name in a text.
    pub(crate) fn name(self) -> &'static str
        ensures { result.now ≡ name_of self }
    {
        self.row().0
    }

    /// What may stand at the key in a text of this form.
    pub(crate) fn rule(self, form: Form) -> Rule
        ensures { result ≡ rule_of form self }
    {
        let Row(_, configuration, meta_text) = self.row();
        match form {
            Form::Configuration => configuration,
            Form::MetaText => meta_text,
        }
    }
}

/// Whether a text of this form may have a key of this name.
pub(crate) fn is_listed(form: Form, name: &str) -> bool
    ensures { result ≡ faults.is_listed form name.now }
{
    ORDER
        .iter()
        .any(|key| key.rule(form).lists() && name == key.name())
}

impl Rule {
    /// Whether the key is listed.
    fn lists(self) -> bool
        ensures { result ≡ faults.is_listing self }
    {
        match self {
            Rule::Unlisted => false,
            Rule::Optional(_) | Rule::Required(_) => true,
        }
    }
}
