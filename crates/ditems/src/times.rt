// The D items that set the time: a letter says which group comes first, and two-digit groups follow.
ghost use Rattle.std.specs.Prelude.{◌≡◌, Some};
ghost use Rattle.ditems.specs.Groups.{set_from};
ghost use Rattle.ditems.specs.Times.{group_of, year_item, time_item};

use crate::groups::{Group, Groups};
use calendar::message::full_year;
use text::two_digits;

// Sets one group after the other, beginning with `first`.
pub fn set_groups(groups: Groups, first: Group, digits: &[u8]) -> Option<Groups>
    ensures { result ≡ set_from (Some first) groups digits.now }
{
    let mut set = groups;
    let mut next = Some(first);
    for pair in digits.chunks(2) {
        let [a, b] = *pair else {
            return None;
        };
        let n = two_digits(a, b)?;
        let group = next?;
        set = set.with(group, n)?;
        next = group.next();
    }
    Some(set.zeroed_from(next))
}

// The group at which the item of this letter begins, an Option as with the units' letters.
fn first_group(letter: u8) -> Option<Group>
    ensures { result ≡ group_of letter }
{
    match letter {
        b'T' => Some(Group::Century),
        b'Y' => Some(Group::Year),
        b'M' => Some(Group::Month),
        b'D' => Some(Group::Day),
        b'H' => Some(Group::Hour),
        b'N' => Some(Group::Minute),
        b'S' => Some(Group::Second),
        _ => None,
    }
}

// Two digits of a year give its century too, and months may follow.
#[tactic(auto, unfolding(crate::specs::Times::year_item))]
fn year_item(groups: Groups, digits: &[u8], current_year: u16) -> Option<Groups>
    ensures { result ≡ year_item groups current_year digits.now }
{
    let [a, b, rest @ ..] = digits else {
        return None;
    };
    let n = two_digits(*a, *b)?;
    set_groups(
        groups.in_year(full_year(current_year, n)),
        Group::Month,
        rest,
    )
}

// What a time item's letter and digits make of the groups.
#[tactic(auto, unfolding(crate::specs::Times::time_item, crate::specs::Times::some_groups))]
pub fn time_item(groups: Groups, letter: u8, digits: &[u8], current_year: u16) -> Option<Groups>
    ensures { result ≡ time_item groups letter current_year digits.now }
{
    match first_group(letter)? {
        Group::Year => year_item(groups, digits, current_year),
        _ if digits.is_empty() => None,
        first => set_groups(groups, first, digits),
    }
}
