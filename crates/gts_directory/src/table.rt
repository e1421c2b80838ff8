//! The rules of a directory, and which of them allow which character at which place of a heading: so a look at all rules
//! takes a few words for each sixty-four of them.

ghost use Rattle.std.specs.Prelude.{◌≡◌, ◌∷◌, [], ◌++◌, ◌*◌, ◌<◌, ◌≤◌, ◌^◌, ℕ, length, slice_index, OnOk, OnErr};
ghost use Rattle.gts_directory.specs.Cited.{All, bit_at, fields_of};
ghost use Rattle.gts_directory.specs.Routing as routing;
ghost use Rattle.gts_directory.specs.Table as table;

use crate::patterns::ANY;
use crate::{CircuitSet, RuleRow};
use gts_alphabet::{NoMemory, digits_of};
use gts_heading::Heading;
use std::alloc::Global;
use std::marker::Model;

/// How many rules have their bits in one block.
const BLOCK_RULES: usize = 64;

/// The characters from the first digit to the last capital.
const CHARACTERS: usize = 43;

/// The first of these characters.
const FIRST: u8 = b'0';

/// A cell for each of the eleven places of a pattern and each of these characters.
const CELLS: usize = 473;

/// Sixty-four rules: in each cell the bits of those that allow its character at its place.
type Block = [u64; CELLS];

/// Rules in their order.
#[derive(Debug, Drop)]
pub(crate) struct RuleTable {
    rows: Vec<RuleRow>,
    blocks: Vec<Block>,
}

impl Model for RuleTable {
    ghost use Rattle.std.specs.Prelude.{List};
    ghost use Rattle.gts_directory.specs.declared.rows.RuleRow as row;
    ghost use Rattle.gts_directory.specs.Table.{IsTable};

    ghost Value = { List row.RuleRow };

    ghost view = { λ a. a.rows.items };

    ghost invariant = { λ a. IsTable a.rows.items a.blocks.items };
}

impl RuleTable {
    /// No rules yet.
    pub(crate) fn new(alloc: Global) -> RuleTable
        ensures { result ≡ [] }
    {
        RuleTable {
            rows: Vec::new(alloc),
            blocks: Vec::new(alloc),
        }
    }

    /// Adds a rule behind the others.
    pub(crate) fn add(&mut self, row: RuleRow) -> Result<(), NoMemory>
        ensures done { OnOk result (self.new ≡ self.old ++ row ∷ []) }
        ensures unchanged { OnErr result (self.new ≡ self.old) }
    {
        let number = self.rows.len();
        make_room(self.rows.as_slice(), &mut self.blocks)?;
        self.rows.push(row)?;
        mark(
            &mut self.blocks[number / BLOCK_RULES],
            number % BLOCK_RULES,
            &row.heading,
        );
        Ok(())
    }

    /// The rules.
    pub(crate) fn rows(&self) -> &[RuleRow]
        ensures { result.now ≡ self.now }
    {
        self.rows.as_slice()
    }

    /// The circuits of all rules that match a heading.
    pub(crate) fn routed(&self, heading: &Heading) -> CircuitSet
        ensures { (k : ℕ) →
            bit_at result k ≡ routing.bit (routing.has_bit self.now (fields_of heading.now) k) }
    {
        let cells = cells_of(heading);
        let mut set = CircuitSet::NONE;
        for (number, block) in self.blocks.iter().enumerate() {
            let fits = fitting(block, &cells);
            if fits != 0 {
                set = set.union(joined(&self.rows[BLOCK_RULES * number..], fits));
            }
        }
        set
    }
}

/// Adds a block without bits where the next rule would be behind all of them.
fn make_room(rows: &[RuleRow], blocks: &mut Vec<Block>) -> Result<(), NoMemory>
    requires { table.IsTable rows.now blocks.old.items }
    ensures same { table.IsTable rows.now blocks.new.items }
    ensures room { OnOk result (length rows.now < 64 * length blocks.new.items) }
{
    if rows.len() / BLOCK_RULES == blocks.len() {
        blocks.push([0; CELLS])?;
    }
    Ok(())
}

/// Sets a rule's bit in each cell that its pattern allows.
fn mark(block: &mut Block, bit: usize, pattern: &[u8; 11])
    requires { bit < 64 }
    ensures { (cell : ℕ) → cell < CELLS → slice_index block.new cell
        ≡ table.marked (slice_index block.old cell) bit (table.allows pattern.now cell) }
{
    for cell in 0..CELLS {
        if allows(pattern, cell) {
            block[cell] |= 1 << bit;
        }
    }
}

/// Whether a pattern allows the character of a cell at its place.
fn allows(pattern: &[u8; 11], cell: usize) -> bool
    requires { cell < CELLS }
    ensures { result ≡ table.allows pattern.now cell }
{
    let expected = pattern[cell / CHARACTERS];
    expected == ANY || usize::from(expected) == cell % CHARACTERS + usize::from(FIRST)
}

/// The cells of a heading's type, area, number and centre.
fn cells_of(heading: &Heading) -> [usize; 10]
    ensures cells { result ≡ table.cells_of (fields_of heading.now) }
    ensures inside { All (λ cell. cell < CELLS) result }
    ensures characters { table.AreCharacters (fields_of heading.now) }
{
    let tt = heading.tt;
    let aa = heading.aa;
    let ii = digits_of::<2>(u32::from(heading.ii));
    let cccc = heading.cccc;
    [
        cell(0, tt[0]),
        cell(1, tt[1]),
        cell(2, aa[0]),
        cell(3, aa[1]),
        cell(4, ii[0]),
        cell(5, ii[1]),
        cell(7, cccc[0]),
        cell(8, cccc[1]),
        cell(9, cccc[2]),
        cell(10, cccc[3]),
    ]
}

/// The cell of a place and a character.
fn cell(place: usize, character: u8) -> usize
    requires place { place ≤ 10 }
    requires character { table.IsCharacter character }
    ensures cell { result ≡ table.cell_of place character }
    ensures inside { result < CELLS }
    ensures character { table.IsCharacter character }
{
    place * CHARACTERS + usize::from(character - FIRST)
}

/// The rules of a block that allow all of these cells. Most blocks have none with the type, which is looked at first.
fn fitting(block: &Block, cells: &[usize; 10]) -> u64
    requires { All (λ cell. cell < CELLS) cells.now }
    ensures { result ≡ table.fitting block.now cells.now }
{
    let of_type = block[cells[0]] & block[cells[1]];
    if of_type == 0 {
        return 0;
    }
    meet(block, &cells[2..], of_type)
}

/// Those of some rules that allow all of these cells.
fn meet(block: &Block, cells: &[usize], rules: u64) -> u64
    requires { All (λ cell. cell < CELLS) cells.now }
    ensures { result ≡ table.meet block.now cells.now rules }
{
    let mut left = rules;
    for cell in cells {
        left &= block[*cell];
    }
    left
}

/// The circuits of the rules whose bits are set.
fn joined(rules: &[RuleRow], fits: u64) -> CircuitSet
    requires { fits < 2 ^ length rules.now }
    ensures { (k : ℕ) → bit_at result k ≡ table.joined rules.now fits k }
{
    let mut set = CircuitSet::NONE;
    let mut left = fits;
    while left != 0 {
        let rule = left.trailing_zeros() as usize;
        set = set.union(rules[rule].to);
        left -= 1 << rule;
    }
    set
}
