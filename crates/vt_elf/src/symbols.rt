//! The symbol table, and where a name leads.

ghost use Rattle.std.specs.Prelude.{◌≡◌, ◌+◌, ◌*◌, ◌<◌, ◌≤◌, IfSome, MatchResult, Some, length, true};
ghost use Rattle.vt_elf.specs.promise.Fields.{e_shnum, section_header};
ghost use Rattle.vt_elf.specs.promise.Symbols.{is_symbol_table, symbol_section, section_bytes, is_in_file, names_section, is_sound_table, symbols_fault, is_of_kind, is_name_at, is_symbol, first_symbol, function_named, object_named, has_section_headers, object_at};
ghost use Rattle.vt_elf.specs.inside.Symbols.{IsTable};

use crate::fields::{double_at, half_at, is_inside, word_at};
use crate::refusal::Refusal;

/// The size of a symbol in its table.
const SYMBOL_SIZE: usize = 24;

/// The size of a section header.
const SECTION_HEADER_SIZE: usize = 64;

/// The types of sections that are looked for.
const SHT_SYMTAB: u32 = 2;

const SHT_STRTAB: u32 = 3;

/// What a symbol names.
#[derive(Clone, Copy)]
pub(crate) enum SymbolKind {
    Function,
    DataObject,
}

/// Where a named object lies in memory, and how many bytes it has there. Nothing is known of these numbers but that the file
/// has them.
#[derive(Debug, Clone, Copy, PartialEq, Eq)]
pub struct Object {
    pub address: u64,
    pub size: u64,
}

/// The symbols of a file: its symbol table, and the names that the symbols point at. A look-up goes over the whole table.
#[derive(Drop)]
pub struct Symbols {
    /// The bytes of the section of type `SHT_SYMTAB`.
    pub table: Vec<u8>,
    /// The bytes of the section of names that belongs to it.
    pub names: Vec<u8>,
}

impl Symbols {
    /// The address of the first defined symbol of this name that is a function or has no type, whether it is local, global or
    /// weak; `None` where there is none.
    pub fn address_of(&self, name: &[u8]) -> Option<u64>
        ensures { result ≡ function_named self.now name.now }
    {
        let index = first_symbol(&self.table, &self.names, SymbolKind::Function, name)?;
        Some(double_at(&self.table, SYMBOL_SIZE * index + 8))
    }

    /// The address and the size of the first defined symbol of this name that is an object, whether it is local, global or weak;
    /// `None` where there is none.
    pub fn object(&self, name: &[u8]) -> Option<Object>
        ensures { result ≡ object_named self.now name.now }
    {
        let index = first_symbol(&self.table, &self.names, SymbolKind::DataObject, name)?;
        Some(object_at(&self.table, SYMBOL_SIZE * index))
    }
}

fn object_at(table: &[u8], at: usize) -> Object
    requires { at + 24 ≤ length table.now }
    ensures { result ≡ object_at table.now at }
{
    Object {
        address: double_at(table, at + 8),
        size: double_at(table, at + 16),
    }
}

/// The index of the first symbol of a kind and a name.
fn first_symbol(table: &[u8], names: &[u8], kind: SymbolKind, name: &[u8]) -> Option<usize>
    ensures first { result ≡ first_symbol table.now names.now kind name.now }
    ensures inside { IfSome result (λ i. 24 * i + 24 ≤ length table.now) }
{
    for index in 0..table.len() / SYMBOL_SIZE {
        if is_symbol(table, names, kind, name, index) {
            return Some(index);
        }
    }
    None
}

/// Whether a symbol is defined, of this kind and of this name.
fn is_symbol(table: &[u8], names: &[u8], kind: SymbolKind, name: &[u8], index: usize) -> bool
    requires { 24 * index + 24 ≤ length table.now }
    ensures { result ≡ is_symbol table.now names.now kind name.now index }
{
    let at = SYMBOL_SIZE * index;
    half_at(table, at + 6) != 0
        && is_of_kind(kind, table[at + 4] % 16)
        && is_name_at(names, word_at(table, at) as usize, name)
}

/// Whether a symbol of this type is of this kind: `STT_NOTYPE` and `STT_FUNC` are functions, `STT_OBJECT` is an object.
fn is_of_kind(kind: SymbolKind, symbol_type: u8) -> bool
    ensures { result ≡ is_of_kind kind symbol_type }
{
    match kind {
        SymbolKind::Function => symbol_type == 0 || symbol_type == 2,
        SymbolKind::DataObject => symbol_type == 1,
    }
}

/// Whether this name, and then a zero byte, stands at an offset in the names.
fn is_name_at(names: &[u8], start: usize, name: &[u8]) -> bool
    ensures { result ≡ is_name_at names.now start name.now }
{
    start < names.len()
        && name.len() < names.len() - start
        && names[start..].starts_with(name)
        && names[start + name.len()] == 0
}

/// The index of the section that is the symbol table.
pub(crate) fn find_symbols(bytes: &[u8]) -> Result<usize, Refusal>
    requires { 64 ≤ length bytes.now }
    ensures { MatchResult result (λ section. IsTable bytes.now section) (λ refusal. symbols_fault bytes.now ≡ Some refusal) }
{
    if half_at(bytes, 60) == 0 {
        return Err(Refusal::NoSymbols);
    }
    if !has_section_headers(bytes) {
        return Err(Refusal::DamagedSymbols);
    }
    let Some(section) = symbol_section(bytes) else {
        return Err(Refusal::NoSymbols);
    };
    if !is_sound_table(bytes, section) {
        return Err(Refusal::DamagedSymbols);
    }
    Ok(section)
}

fn has_section_headers(bytes: &[u8]) -> bool
    requires { 64 ≤ length bytes.now }
    ensures { result ≡ has_section_headers bytes.now }
{
    half_at(bytes, 58) == 64
        && is_inside(
            double_at(bytes, 40),
            64 * u64::from(half_at(bytes, 60)),
            bytes.len(),
        )
}

/// Where a section header begins.
fn section_header(bytes: &[u8], index: usize) -> usize
    requires header { 64 ≤ length bytes.now }
    requires headers { has_section_headers bytes.now ≡ true }
    requires below { index < e_shnum bytes.now }
    ensures offset { result ≡ section_header bytes.now index }
    ensures inside { result + 64 ≤ length bytes.now }
{
    double_at(bytes, 40) as usize + SECTION_HEADER_SIZE * index
}

/// Whether a section is a symbol table.
fn is_symbol_table(bytes: &[u8], index: usize) -> bool
    requires header { 64 ≤ length bytes.now }
    requires headers { has_section_headers bytes.now ≡ true }
    requires below { index < e_shnum bytes.now }
    ensures { result ≡ is_symbol_table bytes.now index }
{
    word_at(bytes, section_header(bytes, index) + 4) == SHT_SYMTAB
}

/// The index of the first section that is a symbol table.
fn symbol_section(bytes: &[u8]) -> Option<usize>
    requires header { 64 ≤ length bytes.now }
    requires headers { has_section_headers bytes.now ≡ true }
    ensures first { result ≡ symbol_section bytes.now }
    ensures below { IfSome result (λ i. i < e_shnum bytes.now) }
{
    for index in 0..usize::from(half_at(bytes, 60)) {
        if is_symbol_table(bytes, index) {
            return Some(index);
        }
    }
    None
}

/// Whether a section's bytes are whole in the file.
fn is_in_file(bytes: &[u8], index: usize) -> bool
    requires header { 64 ≤ length bytes.now }
    requires headers { has_section_headers bytes.now ≡ true }
    requires below { index < e_shnum bytes.now }
    ensures { result ≡ is_in_file bytes.now index }
{
    let at = section_header(bytes, index);
    is_inside(
        double_at(bytes, at + 24),
        double_at(bytes, at + 32),
        bytes.len(),
    )
}

/// Whether a symbol table has entries of the right size, and names.
fn is_sound_table(bytes: &[u8], index: usize) -> bool
    requires header { 64 ≤ length bytes.now }
    requires headers { has_section_headers bytes.now ≡ true }
    requires below { index < e_shnum bytes.now }
    ensures { result ≡ is_sound_table bytes.now index }
{
    let at = section_header(bytes, index);
    let names = word_at(bytes, at + 40) as usize;
    double_at(bytes, at + 56) == SYMBOL_SIZE as u64
        && is_in_file(bytes, index)
        && names < usize::from(half_at(bytes, 60))
        && word_at(bytes, section_header(bytes, names) + 4) == SHT_STRTAB
        && is_in_file(bytes, names)
}

/// The index of the section of the names of a symbol table.
pub(crate) fn names_section(bytes: &[u8], index: usize) -> usize
    requires header { 64 ≤ length bytes.now }
    requires headers { has_section_headers bytes.now ≡ true }
    requires below { index < e_shnum bytes.now }
    ensures { result ≡ names_section bytes.now index }
{
    word_at(bytes, section_header(bytes, index) + 40) as usize
}

/// The bytes of a section.
pub(crate) fn section_bytes(bytes: &[u8], index: usize) -> &[u8]
    requires header { 64 ≤ length bytes.now }
    requires headers { has_section_headers bytes.now ≡ true }
    requires below { index < e_shnum bytes.now }
    requires whole { is_in_file bytes.now index ≡ true }
    ensures { result.now ≡ section_bytes bytes.entry.now index }
{
    let at = section_header(bytes, index);
    let from = double_at(bytes, at + 24) as usize;
    let size = double_at(bytes, at + 32) as usize;
    &bytes[from..from + size]
}
