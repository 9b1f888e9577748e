//! The pairs of name and value after a command, in one walk.

ghost use Rattle.std.specs.Prelude.{◌≡◌, ◌≤◌, IsFalse, IsTrue, List, length, ℕ};
ghost use Rattle.std.specs.List.{position};
ghost use Rattle.std.specs.Str.{bytes_eq};
ghost use Rattle.job_words.specs.CommandLine.{found_in, may_be_given, texts, with_value};
ghost use Rattle.job_words.specs.Places.{by_place, texts_of};

/// The place of a name among the names of a command, none where it is not one of them.
fn place_of(names: &[&str], name: &str) -> Option<usize>
    ensures { result ≡ position (λ other. bytes_eq name.now other.now) names.now }
{
    names.iter().position(|other| name == *other)
}

/// Gives a name its value, where the name may stand here and has none yet, and says whether it may.
fn give<'a>(names: &[&str], name: &str, value: &'a str, values: &mut [Option<&'a str>]) -> bool
    requires places { length names.now ≤ length values.old }
    ensures may { result ≡ may_be_given (texts_of names.now) (by_place names.now values.old) name.now }
    ensures given { IsTrue result → by_place names.now values.new
        ≡ with_value name.now value.now (by_place names.now values.old) }
{
    let Some(place) = place_of(names, name) else {
        return false;
    };
    if values[place].is_some() {
        return false;
    }
    values[place] = Some(value);
    true
}

/// Gives each name of the pairs its value, and says whether all of them may stand here.
pub(crate) fn walk<'a>(names: &[&str], words: &'a [String], values: &mut [Option<&'a str>]) -> bool
    requires places { length names.now ≤ length values.old }
    ensures all { IsTrue result → found_in (texts_of names.now) (by_place names.now values.old) (texts words.now)
        ≡ Some (by_place names.now values.new) }
    ensures none { IsFalse result → found_in (texts_of names.now) (by_place names.now values.old) (texts words.now)
        ≡ None }
{
    let mut rest = words;
    while let Some((name, others)) = rest.split_first() {
        let Some((value, others)) = others.split_first() else {
            return false;
        };
        if !give(names, name.as_str(), value.as_str(), values) {
            return false;
        }
        rest = others;
    }
    true
}
