//! Words that go with a number.
ghost use Rattle.std.specs.Prelude.{◌≡◌};
ghost use Rattle.member_timelines.specs.Numbers.{by_number};

/// The words for one thing where the number is 1, else those for several.
pub fn by_number<'a>(number: u64, one: &'a str, several: &'a str) -> &'a str
    ensures { result.now ≡ by_number number one.now several.now }
{
    if number == 1 { one } else { several }
}
