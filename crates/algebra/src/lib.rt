// Entries of four whole numbers over the eighth root of unity, and their arithmetic within a width.
#![tactic(auto)]

ghost use Rattle.std.specs.Prelude.{◌≡◌, ◌&&◌, ◌^◌, ◌-◌, ◌≤◌, ◌<◌, pos, ◌+ℤ◌, ◌-ℤ◌};
ghost use Rattle.std.specs.Int.Signed.{mag};
ghost use Rattle.algebra.specs.Entry.{◌⊕◌, ◌⊖◌, turned};
ghost use Rattle.algebra.specs.Width.{number_in_width, entry_in_width, bounded};
ghost use Rattle.algebra.specs.Numbers.{entry_of, part};
ghost use Rattle.algebra.specs.Division.{even, half, divisible, over_√2};

// (a, b, c, d) means a·w8³ + b·w8² + c·w8 + d; the default one is zero.
#[derive(Clone, Copy, PartialEq, Eq, Debug, Default)]
pub struct Entry {
    pub a: i32,
    pub b: i32,
    pub c: i32,
    pub d: i32,
}

fn add_wide(x: i32, y: i32) -> i64
    ensures { result ≡ x +ℤ y }
{
    i64::from(x) + i64::from(y)
}

fn sub_wide(x: i32, y: i32) -> i64
    ensures { result ≡ x -ℤ y }
{
    i64::from(x) - i64::from(y)
}

// Whether a number is one of the width.
fn within(number: i64, w: u32) -> bool
    requires { (2 ≤ w) × (w ≤ 32) }
    ensures { result ≡ number_in_width w number }
{
    let half = 1i64 << (w - 1);
    (-half..half).contains(&number)
}

// Whether each of four numbers is one of the width.
fn all_within(x: [i64; 4], w: u32) -> bool
    requires { (2 ≤ w) × (w ≤ 32) }
    ensures { result ≡ entry_in_width w (entry_of x) }
{
    x.iter().all(|z| within(*z, w))
}

// The entry of four numbers, if the width is one and holds each of them.
fn narrowed(x: [i64; 4], w: u32) -> Option<Entry>
    ensures { result ≡ bounded w (entry_of x) }
{
    if (2..=32).contains(&w) && all_within(x, w) {
        let [a, b, c, d] = x;
        Some(Entry {
            a: a as i32,
            b: b as i32,
            c: c as i32,
            d: d as i32,
        })
    } else {
        None
    }
}

// x + y, if it lies within the width w.
pub fn sum(x: Entry, y: Entry, w: u32) -> Option<Entry>
    ensures { result ≡ bounded w (x ⊕ y) }
{
    narrowed(
        [
            add_wide(x.a, y.a),
            add_wide(x.b, y.b),
            add_wide(x.c, y.c),
            add_wide(x.d, y.d),
        ],
        w,
    )
}

// x − y, if it lies within the width w. It is another operation than `sum`, and not the same at another type: they share what narrows.
pub fn difference(x: Entry, y: Entry, w: u32) -> Option<Entry>
    ensures { result ≡ bounded w (x ⊖ y) }
{
    narrowed(
        [
            sub_wide(x.a, y.a),
            sub_wide(x.b, y.b),
            sub_wide(x.c, y.c),
            sub_wide(x.d, y.d),
        ],
        w,
    )
}

// The number at place m of a, b, c, d, −a, −b, −c, −d, and so on round.
fn rotated(x: Entry, m: u32) -> i64
    ensures { result ≡ part x m }
{
    match m % 8 {
        0 => i64::from(x.a),
        1 => i64::from(x.b),
        2 => i64::from(x.c),
        3 => i64::from(x.d),
        4 => -i64::from(x.a),
        5 => -i64::from(x.b),
        6 => -i64::from(x.c),
        _ => -i64::from(x.d),
    }
}

// x times w8 to the power j, if it lies within the width w.
pub fn turned(x: Entry, j: u32, w: u32) -> Option<Entry>
    ensures { result ≡ bounded w (turned j x) }
{
    let k = j % 8;
    narrowed(
        [
            rotated(x, k),
            rotated(x, k + 1),
            rotated(x, k + 2),
            rotated(x, k + 3),
        ],
        w,
    )
}

fn is_even(z: i64) -> bool
    ensures { result ≡ even z }
{
    z % 2 == 0
}

// Half of z, rounded toward 0.
fn halved(z: i64) -> i32
    requires { mag z < 2 ^ 32 }
    ensures { result ≡ half z }
{
    (z / 2) as i32
}

// Whether x is a multiple of √2.
pub fn divisible(x: Entry) -> bool
    ensures { result ≡ divisible x }
{
    is_even(add_wide(x.a, x.c)) && is_even(add_wide(x.b, x.d))
}

// x divided by √2, if it is a multiple.
pub fn over_root(x: Entry) -> Entry
    ensures { result ≡ over_√2 x }
{
    Entry {
        a: halved(sub_wide(x.b, x.d)),
        b: halved(add_wide(x.a, x.c)),
        c: halved(add_wide(x.b, x.d)),
        d: halved(sub_wide(x.c, x.a)),
    }
}
