// The index of accepted tables: each rule in four bytes, and for each box the rules that name it, as chains of entries. An entry is
// the place of a byte that holds a box; place 0 holds a kind, so 0 ends a chain.
#![tactic(auto)]

ghost use Rattle.std.specs.Prelude.{◌≡◌, false, [], ◌∷◌, ◌++◌, ℕ, ◌+◌, ◌*◌, ◌<◌, ◌≤◌, length, get_or, replicate};
ghost use Rattle.spec.specs.Records.{rules_in, bad};
ghost use Rattle.spec.proofs.Named.{Good};
ghost use Rattle.records.specs.Record.{as_rec};
ghost use Rattle.index.specs.Index.{rule_at, packed_rules, Packed, Linked, Held};
ghost use Rattle.index.specs.Whole.{Indexed};

use records::kinds::has_z;
use records::{Record, is_rule};
use tables::Tables;

// The bytes of a packed rule: kind, x, y, z. Where z is missing its byte is of no matter.
const RULE: usize = 4;

// The number of a box as a byte. A z that is missing is no box, and any byte will do.
fn byte_of(b: usize) -> u8
    ensures { b < 256 → result ≡ b }
{
    u8::try_from(b).unwrap_or(0)
}

// The number of a box from its byte.
pub fn box_of(byte: u8) -> usize
    ensures { (result ≡ byte) × (result < 256) }
{
    usize::from(byte)
}

// Writes q behind the first m packed rules.
fn pack_rule(packed: &mut [u8; 4096], m: usize, q: Record)
    requires m_bound { m < 1024 }
    requires packed_len { length packed.old ≡ 4096 }
    requires q_value { bad 256 (as_rec q) ≡ false }
    ensures packed_len_2 { length packed.new ≡ 4096 }
    ensures m_after { packed_rules packed.new (m + 1) ≡ packed_rules packed.old m ++ (as_rec q ∷ []) }
{
    let at = RULE * m;
    packed[at] = q.kind;
    packed[at + 1] = byte_of(q.x);
    packed[at + 2] = byte_of(q.y);
    packed[at + 3] = byte_of(q.z);
}

// Writes the rules of both tables one after the other, and answers how many they are.
pub fn pack(t: Tables, packed: &mut [u8; 4096]) -> usize
    requires { length packed.old ≡ 4096 }
    ensures { Packed packed.new result (rules_in t.entry.maker.now t.entry.depot.now) }
{
    let mut m = 0;
    for i in 0..t.records() {
        let q = t.record(i);
        if is_rule(q) {
            pack_rule(packed, m, q);
            m += 1;
        }
    }
    m
}

// Entry e goes to the head of its box's chain.
fn link_entry(packed: &[u8; 4096], e: usize, first: &mut [u16; 256], next: &mut [u16; 4096])
    requires e_bound { e < 4096 }
    requires linked { Linked packed.now e first.old next.old }
    requires held { Held packed.now (get_or packed.now e 0) e }
    ensures { Linked packed.now (e + 1) first.new next.new }
{
    let b = box_of(packed[e]);
    next[e] = first[b];
    first[b] = e as u16;
}

// The boxes that rule j names go to their chains.
fn link_rule(packed: &[u8; 4096], j: usize, first: &mut [u16; 256], next: &mut [u16; 4096])
    requires j_bound { j < 1024 }
    requires j_value { bad 256 (rule_at packed.now j) ≡ false }
    requires linked { Linked packed.now (4 * j) first.old next.old }
    ensures { Linked packed.now (4 * (j + 1)) first.new next.new }
{
    let at = RULE * j;
    link_entry(packed, at + 1, first, next);
    link_entry(packed, at + 2, first, next);
    if has_z(packed[at]) {
        link_entry(packed, at + 3, first, next);
    }
}

// The chains of m packed rules, from none.
pub fn link(packed: &[u8; 4096], m: usize, first: &mut [u16; 256], next: &mut [u16; 4096])
    requires m_bound { m ≤ 1024 }
    requires good { Good 256 (packed_rules packed.now m) }
    requires linked { Linked packed.now 0 first.old next.old }
    ensures { Linked packed.now (4 * m) first.new next.new }
{
    for j in 0..m {
        link_rule(packed, j, first, next);
    }
}

// The packed rules and how many they are; each box's first entry, and each entry's next. That they are linked is a clause and no ghost
// field: it says at which record and place an entry is, and a ghost field holds no such data.
#[derive(Clone, Copy)]
pub struct Index {
    pub packed: [u8; 4096],
    pub rules: usize,
    pub first: [u16; 256],
    pub next: [u16; 4096],
}

impl Index {
    // Of no rule.
    pub fn empty() -> Index
        ensures packed_len { length result.packed ≡ 4096 }
        ensures first { result.first ≡ replicate 256 0 }
        ensures next { result.next ≡ replicate 4096 0 }
    {
        Index {
            packed: [0; 4096],
            rules: 0,
            first: [0; 256],
            next: [0; 4096],
        }
    }

    // The empty index becomes that of the tables, where it lies: one that is handed back full would be copied, and zeros need no copy.
    pub fn fill(&mut self, t: Tables)
        requires packed_len { length self.old.packed ≡ 4096 }
        requires first { self.old.first ≡ replicate 256 0 }
        requires next { self.old.next ≡ replicate 4096 0 }
        ensures { Indexed self.new (rules_in t.entry.maker.now t.entry.depot.now) }
    {
        self.rules = pack(t, &mut self.packed);
        link(&self.packed, self.rules, &mut self.first, &mut self.next);
    }
}
