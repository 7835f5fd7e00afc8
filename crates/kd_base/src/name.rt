//! Names of TACs, users, terminals, areas, blocks and program units.
ghost use Rattle.std.specs.{Prelude.{◌≡◌, ◌≤◌, List, ℕ, IfSome, SomeIff, Some, length, nat_eq, refl}, List.{list_all, prefix_len}, Slice.Scan.{big_endian}};
ghost use Rattle.std.specs.{Ordering.{nat_cmp}, Cmp.{partial_equiv_from_equiv}, Cmp.Lexicographic.{pointwise, slice_cmp, nat_list_eq_equiv, nat_list_cmp_total, texts_ties, texts_po}};
ghost use Rattle.kd_base.specs.Text.{is_name_byte, is_space, IsName, IsNameUpTo, name_up_to, name_in, padded};

use std::cmp::Ordering;
use std::hash::{Hash, Hasher};
use std::marker::Model;

/// 1 to N letters, digits, `$`, `#`, `@` and `_`. Contracts see the list of these bytes.
#[derive(Clone, Copy)]
pub struct NameOf<const N: usize> {
    cells: [u8; N],
    used: usize,
}

/// A name: at most 8 bytes.
pub type Name = NameOf<8>;

/// A program name: at most 32 bytes.
pub type ProgName = NameOf<32>;

impl<const N: usize> Model for NameOf<N> {
    ghost use Rattle.std.specs.Prelude.{List, ℕ, length, take};
    ghost use Rattle.kd_base.specs.Text.{filled};

    ghost Value = { List ℕ };

    ghost use Rattle.kd_base.specs.{NameCells.{IsNameCells}, NameCellsLaws.{same_name}};

    ghost view = { λ n. take n.used n.cells };

    ghost invariant = { λ n. IsNameCells N n };

    ghost inverse = { λ bytes. record { cells = filled N bytes; used = length bytes } };

    ghost inverse_ok = { same_name N };
}

fn is_name_byte(b: u8) -> bool
    ensures { result ≡ is_name_byte b }
{
    matches!(b, b'A'..=b'Z' | b'a'..=b'z' | b'0'..=b'9' | b'$' | b'#' | b'@' | b'_')
}

fn are_name_bytes(bytes: &[u8]) -> bool
    ensures { result ≡ list_all is_name_byte bytes.now }
{
    bytes.iter().all(|b| is_name_byte(*b))
}

fn are_spaces(bytes: &[u8]) -> bool
    ensures { result ≡ list_all is_space bytes.now }
{
    bytes.iter().all(|b| *b == b' ')
}

// How many name bytes are in front.
fn name_len(bytes: &[u8]) -> usize
    ensures len { result ≡ prefix_len is_name_byte bytes.now }
    ensures within { result ≤ length bytes.now }
{
    let mut n = 0;
    while n < bytes.len() && is_name_byte(bytes[n]) {
        n += 1;
    }
    n
}

// Eight bytes as a number, the first counting most: such numbers compare as the lists of bytes do.
#[inline]
fn eight_as_number(bytes: &[u8]) -> u64
    requires { length bytes.now ≡ 8 }
    ensures { result ≡ big_endian 0 bytes.now }
{
    u64::from_be_bytes([
        bytes[0], bytes[1], bytes[2], bytes[3], bytes[4], bytes[5], bytes[6], bytes[7],
    ])
}

impl<const N: usize> NameOf<N> {
    /// The name with these bytes. It takes no memory.
    pub fn from_bytes(bytes: &[u8]) -> Option<NameOf<N>>
        ensures exact { SomeIff result (IsNameUpTo N bytes.now) bytes.now }
        ensures name { result ≡ name_up_to N bytes.now }
    {
        if bytes.is_empty() || bytes.len() > N || !are_name_bytes(bytes) {
            return None;
        }
        let mut cells = [b' '; N];
        cells[..bytes.len()].copy_from_slice(bytes);
        Some(NameOf {
            cells,
            used: bytes.len(),
        })
    }

    /// The bytes of the name.
    pub fn as_slice(&self) -> &[u8]
        ensures bytes { result.now ≡ self.now }
        ensures name { IsNameUpTo N self.now }
    {
        &self.cells[..self.used]
    }
}

impl NameOf<8> {
    /// The name that these 8 bytes are when it is filled with spaces on the right.
    pub fn from_padded(bytes: &[u8]) -> Option<Name>
        requires { length bytes.now ≡ 8 }
        ensures name { result ≡ name_in bytes.now }
        ensures found { IfSome result (λ name. IsName name × (bytes.now ≡ padded name)) }
        ensures only { (name : List ℕ) → IsName name → bytes.now ≡ padded name → result ≡ Some name }
    {
        let (name, filling) = bytes.split_at(name_len(bytes));
        if !are_spaces(filling) {
            return None;
        }
        Name::from_bytes(name)
    }

    /// The name filled with spaces on the right.
    pub fn padded(&self) -> [u8; 8]
        ensures { result ≡ padded self.now }
    {
        self.cells
    }
}

impl<const N: usize> PartialEq for NameOf<N> {
    ghost eq = { pointwise nat_eq };

    ghost laws = { partial_equiv_from_equiv nat_list_eq_equiv };

    fn eq(&self, other: &NameOf<N>) -> bool {
        if N == 8 {
            return eight_as_number(&self.cells) == eight_as_number(&other.cells);
        }
        self.as_slice() == other.as_slice()
    }
}

impl<const N: usize> Eq for NameOf<N> {
    ghost laws = { nat_list_eq_equiv };
}

impl<const N: usize> PartialOrd for NameOf<N> {
    ghost partial_cmp = { λ a b. Some (slice_cmp nat_cmp a b) };

    ghost laws = { texts_po };

    fn partial_cmp(&self, other: &NameOf<N>) -> Option<Ordering> {
        Some(self.cmp(other))
    }
}

impl<const N: usize> Ord for NameOf<N> {
    ghost cmp = { slice_cmp nat_cmp };

    ghost total = { nat_list_cmp_total };

    ghost matches_partial_cmp = { λ a b. refl };

    ghost matches_eq = { texts_ties };

    fn cmp(&self, other: &NameOf<N>) -> Ordering {
        if N == 8 {
            return eight_as_number(&self.cells).cmp(&eight_as_number(&other.cells));
        }
        self.as_slice().cmp(&other.as_slice())
    }
}

// Filled with spaces, names of one type are all fed as so many bytes, in one write.
impl<const N: usize> Hash for NameOf<N> {
    ghost use Rattle.std.proofs.Common.{rules};
    ghost use Rattle.std.specs.Prelude.{[], ◌∷◌};
    ghost use Rattle.std.specs.Cmp.Rules.{hashing};
    ghost use Rattle.kd_base.specs.Text.{filled};

    ghost hash_input = { λ name. filled N name ∷ [] };

    ghost respects_eq = { Prim.search (hashing, rules) };

    fn hash<H: Hasher>(&self, state: &mut H) {
        state.write(&self.cells);
    }
}
