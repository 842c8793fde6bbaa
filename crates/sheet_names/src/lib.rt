// A name judged: whether its bytes are good, and whether one of the names before it is equal.
#![tactic(auto)]

ghost use Rattle.std.specs.Prelude.{◌≡◌};
ghost use Rattle.sheet.specs.Sheet.{all_good, taken as taken_in};
ghost use Rattle.sheet.specs.Walk.{walk_names};
ghost use Rattle.sheet_names.specs.Keys.{mixed as mixed_in, key_of, has, Walkable, NamesRead, whose_is};

use sheet::NAMES;

// Is each byte of a name good?
pub fn good_bytes(b: &[u8]) -> bool
    ensures { result ≡ all_good b.now }
{
    b.iter().all(|x| 0x21 <= *x && *x <= 0x7E)
}

// Is a name among the first names of the sheet? The fields before are walked again.
fn among(sheet: &[u8], names: usize, name: &[u8]) -> bool
    requires { Walkable sheet.now 5 names }
    ensures { result ≡ taken_in (walk_names sheet.now 5 names) name.now }
{
    let mut at = 5;
    let mut left = names;
    while 0 < left {
        let e = sheet::past(sheet, at);
        let a = at + 3;
        if &sheet[a..e] == name {
            return true;
        }
        at = e;
        left -= 1;
    }
    false
}

// One byte more in a key.
fn mixed(key: u32, x: u8) -> u32
    ensures { result ≡ mixed_in key x }
{
    key.wrapping_mul(16777619).wrapping_add(u32::from(x))
}

// The key of a name: unlike names seldom have the same one.
pub fn key(name: &[u8]) -> u32
    ensures { result ≡ key_of name.now }
{
    let mut mix = 0;
    for x in name {
        mix = mixed(mix, *x);
    }
    mix
}

// Is a key among the first ones? It does not end at the first that is equal, so that several are compared at once.
fn key_among(keys: &[u32], key: u32) -> bool
    ensures { result ≡ has keys.now key }
{
    let mut found = false;
    for k in keys {
        found |= *k == key;
    }
    found
}

// Whose name it is already.
#[derive(Clone, Copy, Debug, PartialEq, Eq)]
pub enum Whose {
    Customers,
    Fittings,
    Nobodys,
}

// Whose name it is already, byte by byte.
fn compared(fittings: &[u8], fitted: usize, sheet: &[u8], names: usize, name: &[u8]) -> Whose
    requires { Walkable fittings.now 5 fitted × Walkable sheet.now 5 names }
    ensures { result ≡ whose_is (walk_names fittings.now 5 fitted) (walk_names sheet.now 5 names) name.now }
{
    if among(sheet, names, name) {
        Whose::Customers
    } else if among(fittings, fitted, name) {
        Whose::Fittings
    } else {
        Whose::Nobodys
    }
}

// Whose name it is already. Its key, which the caller has, only spares the comparison: names with one key are compared byte by byte.
pub fn taken(
    fittings: &[u8],
    fitted: usize,
    sheet: &[u8],
    names: usize,
    keys: &[u32; NAMES],
    name: &[u8],
    key: u32,
) -> Whose
    requires { NamesRead fittings.now fitted sheet.now names keys.now × (key ≡ key_of name.now) }
    ensures { result ≡ whose_is (walk_names fittings.now 5 fitted) (walk_names sheet.now 5 names) name.now }
{
    if key_among(&keys[..fitted + names], key) {
        compared(fittings, fitted, sheet, names, name)
    } else {
        Whose::Nobodys
    }
}
