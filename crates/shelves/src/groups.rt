// Numbers in groups of seven bits.
ghost use Rattle.std.specs.Prelude.{◌≡◌, ◌<◌, ◌≤◌, ◌++◌, List, ℕ, length, drop, IfSome, Some};
ghost use Rattle.tables.specs.Items.{items, HasRoom, Extended};
ghost use Rattle.shelves.specs.Groups.{answer_of, groups, limit, read_first, unzigzag, zigzag};

use tables::table::Table;

// How many groups a number takes. It follows from its significant bits, and 0 takes one.
pub(crate) fn group_count(n: u32) -> usize
    ensures value { result ≡ length (groups n) }
    ensures most { result ≤ 5 }
{
    let bits = 32 - n.leading_zeros();
    bits.div_ceil(7).max(1) as usize
}

// Adds a number's groups of seven bits, low group first, the top bit set on all but the last.
// Whatever follows them, the number is read back, and what follows is left.
pub(crate) fn write_groups(bytes: &mut Table<u8>, n: u32)
    requires { HasRoom bytes.old (groups n) }
    ensures written { Extended bytes.old (groups n) bytes.new }
    ensures back { (rest : List ℕ) → read_first 5 (drop (length (items bytes.old)) (items bytes.new) ++ rest) ≡ Some (n, rest) }
{
    let mut rest = n;
    while rest >= 128 {
        bytes.push(128 + (rest % 128) as u8);
        rest /= 128;
    }
    bytes.push(rest as u8);
}

// Reads the groups of one number, at most `most`: the number and the bytes after it,
// or none where they do not end in time.
pub(crate) fn read_groups(bytes: &[u8], most: usize) -> Option<(u64, &[u8])>
    requires { limit most ≤ 34359738368 }
    ensures answer { answer_of result ≡ read_first most bytes.now }
    ensures fits { IfSome result (λ p. p.0 < limit most) }
{
    if most == 0 {
        return None;
    }
    match bytes {
        [] => None,
        [last, rest @ ..] if *last < 128 => Some((u64::from(*last), rest)),
        [group, rest @ ..] => {
            let (high, rest) = read_groups(rest, most - 1)?;
            Some((u64::from(*group) - 128 + 128 * high, rest))
        }
    }
}

// A signed number as an unsigned one: small numbers of either sign stay small.
pub(crate) fn fold_sign(v: i32) -> u32
    ensures { result ≡ zigzag v }
{
    if v >= 0 {
        v as u32 * 2
    } else {
        (-(v + 1)) as u32 * 2 + 1
    }
}

// The signed number that was folded.
pub(crate) fn unfold_sign(n: u32) -> i32
    ensures { result ≡ unzigzag n }
{
    let half = (n / 2) as i32;
    if n % 2 == 0 { half } else { -half - 1 }
}
