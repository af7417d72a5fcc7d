// Rows and words: readers that answer 0 past the end of the image, so that no caller has to know its length.
ghost use Rattle.std.specs.Prelude.{◌≡◌, ◌+◌, ◌*◌, ◌≤◌, ◌<◌, ◌^◌};
ghost use Rattle.lists.specs.Lists.{part, table};
ghost use Rattle.image.specs.Words.{word_at, range_at, trailer_at, trailer_word, section_at, sections_of, section_of, row_width, row_at, section_end, nested_messages, enums_of, fields_of, extensions_of, oneofs_of, values_of, file_extensions, extension_ranges_at, map_entry_at};
ghost use Rattle.image.specs.Schema.{field_row};
ghost use Rattle.image.specs.declared.rows.Kind.TheVariants.{Message};

// A row's place in its section of the image.
#[derive(Clone, Copy, Debug, PartialEq, Eq)]
pub struct Row(pub u32);

// A number in the flat order of a file's messages, enums, oneofs or fields.
#[derive(Clone, Copy, Debug, PartialEq, Eq)]
pub struct Flat(pub u32);

// The six kinds of rows, in the order of their sections.
#[derive(Clone, Copy, Debug, PartialEq, Eq)]
pub enum Kind {
    Import,
    Message,
    Enum,
    Value,
    Oneof,
    Field,
}

// `count` rows from row `first` on.
#[derive(Clone, Copy, Debug, PartialEq, Eq)]
pub struct Range {
    pub first: u32,
    pub count: u32,
}

// Where a section's rows start, and how many there are.
#[derive(Clone, Copy, Debug, PartialEq, Eq)]
pub struct Section {
    pub start: u32,
    pub count: u32,
}

// The six sections, as the trailer tells.
#[derive(Clone, Copy, Debug, PartialEq, Eq)]
pub struct Sections {
    pub imports: Section,
    pub messages: Section,
    pub enums: Section,
    pub values: Section,
    pub oneofs: Section,
    pub fields: Section,
}

// The words of an image, and where its sections stand.
#[derive(Clone, Copy)]
pub struct Rows<'a> {
    pub words: &'a [u32],
    pub sections: Sections,
}

// Word `at` of the image.
pub fn word_at(image: &[u32], at: usize) -> u32
    ensures { result ≡ word_at image.now at }
{
    image.get(at).copied().unwrap_or(0)
}

// `n` elements from element `start` on, as far as there are any.
pub(crate) fn part<T>(all: &[T], start: usize, n: usize) -> &[T]
    ensures { result.now ≡ part start n all.now }
{
    if all.len() <= start {
        return &all[..0];
    }
    if all.len() - start <= n {
        return &all[start..];
    }
    let end = start + n;
    &all[start..end]
}

// Where the trailer starts, if the image is long enough for one.
pub fn trailer_at(image: &[u32]) -> usize
    ensures { result ≡ trailer_at image.now }
{
    image.len().saturating_sub(24)
}

pub fn trailer_word(image: &[u32], k: u8) -> u32
    ensures { result ≡ trailer_word image.now k }
{
    word_at(image, trailer_at(image) + k as usize)
}

// A section of the trailer whose start is its word `k`.
fn section_at(image: &[u32], k: u8) -> Section
    requires { k < 255 }
    ensures { result ≡ section_at image.now k }
{
    Section {
        start: trailer_word(image, k),
        count: trailer_word(image, k + 1),
    }
}

// How many words a row of a kind has.
fn row_width(kind: Kind) -> usize
    ensures { (result ≡ row_width kind) × (result < 17) }
{
    match kind {
        Kind::Import => 3,
        Kind::Message => 14,
        Kind::Enum => 4,
        Kind::Value => 3,
        Kind::Oneof => 2,
        Kind::Field => 16,
    }
}

// Where a row or the trailer starts: low enough that its words can be counted from there.
#[derive(Clone, Copy)]
pub(crate) struct Start {
    pub(crate) first: usize,
    ghost low: { first < 2 ^ 63 },
}

impl Start {
    // Word `k` of the row.
    pub(crate) fn word(self, k: u8) -> usize
        ensures { result ≡ self.first + k }
    {
        self.first + k as usize
    }
}

impl Sections {
    // The sections of an image, as its trailer tells.
    pub fn read(image: &[u32]) -> Sections
        ensures { result ≡ sections_of image.now }
    {
        Sections {
            imports: section_at(image, 6),
            messages: section_at(image, 8),
            enums: section_at(image, 10),
            values: section_at(image, 12),
            oneofs: section_at(image, 14),
            fields: section_at(image, 16),
        }
    }

    // The section of a kind.
    pub fn section_of(&self, kind: Kind) -> Section
        ensures { result ≡ section_of self.now kind }
    {
        match kind {
            Kind::Import => self.imports,
            Kind::Message => self.messages,
            Kind::Enum => self.enums,
            Kind::Value => self.values,
            Kind::Oneof => self.oneofs,
            Kind::Field => self.fields,
        }
    }

    // Where the row with that number starts, as far as the number is a sum of two words.
    fn place_of(&self, kind: Kind, row: usize) -> usize
        requires { row < 2 ^ 33 }
        ensures { (result ≡ row_at self.now kind row) × (result < 2 ^ 32 + row * 16) }
    {
        let width = row_width(kind);
        let section = self.section_of(kind);
        section.start as usize + row * width
    }

    // Where a row starts.
    pub fn row_at(&self, kind: Kind, row: Row) -> usize
        ensures { (result ≡ row_at self.now kind row.0) × (result < 2 ^ 38) }
    {
        self.place_of(kind, row.0 as usize)
    }

    // Where row `j` of a range starts. Its number is added as usize, since any two words may stand in the range.
    pub fn nth_at(&self, kind: Kind, g: Range, j: u32) -> usize
        ensures { (result ≡ row_at self.now kind (g.first + j)) × (result < 2 ^ 40) }
    {
        self.place_of(kind, g.first as usize + j as usize)
    }

    // Where a section ends.
    pub fn section_end(&self, kind: Kind) -> usize
        ensures { result ≡ section_end self.now kind }
    {
        let section = self.section_of(kind);
        self.row_at(kind, Row(section.count))
    }

    // Where the section of a kind starts.
    pub fn start_of(&self, kind: Kind) -> u32
        ensures { result ≡ (section_of self.now kind).start }
    {
        let section = self.section_of(kind);
        section.start
    }

    // How many rows of a kind there are.
    pub fn count_of(&self, kind: Kind) -> u32
        ensures { result ≡ (section_of self.now kind).count }
    {
        let section = self.section_of(kind);
        section.count
    }
}

// The range whose first row and count stand at word `at`.
pub fn range_at(image: &[u32], at: usize) -> Range
    ensures { result ≡ range_at image.now at }
{
    if at < image.len() {
        return Range {
            first: image[at],
            count: word_at(image, at + 1),
        };
    }
    Range { first: 0, count: 0 }
}

// The file's extensions.
pub fn file_extensions(image: &[u32]) -> Range
    ensures { result ≡ file_extensions image.now }
{
    let first = trailer_word(image, 20);
    let count = trailer_word(image, 21);
    Range { first, count }
}

// `N` words from word `at` on, by value.
pub fn words_at<const N: usize>(words: &[u32], at: usize) -> [u32; N]
    ensures { result ≡ table N (λ k. word_at words.now (at + k)) }
{
    let there = part(words, at, N);
    // Where all of them are there, the compiler knows how many: a caller that looks at one word of a row then reads that word alone.
    if let Some(&row) = there.as_array() {
        return row;
    }
    let mut row = [0u32; N];
    row[..there.len()].copy_from_slice(there);
    row
}

// The field row that starts at word `at`: sixteen words at once.
pub fn field_row_at(image: &[u32], at: usize) -> [u32; 16]
    ensures { result ≡ table 16 (λ k. word_at image.now (at + k)) }
{
    words_at(image, at)
}

impl<'a> Rows<'a> {
    // The words of an image with the sections that its trailer tells.
    pub fn read(words: &'a [u32]) -> Rows<'a>
        ensures { result ≡ record { words = words.entry; sections = sections_of words.now } }
    {
        Rows {
            words,
            sections: Sections::read(words),
        }
    }

    // The words themselves.
    pub(crate) fn held(&self) -> &'a [u32]
        ensures { result.now ≡ self.now.words.now }
    {
        self.words
    }

    // The range whose first row and count stand at an offset of a row.
    fn range_of(&self, kind: Kind, row: Row, offset: u8) -> Range
        ensures { result ≡ range_at self.now.words.now (row_at self.now.sections kind row.0 + offset) }
    {
        range_at(
            self.words,
            self.sections.row_at(kind, row) + offset as usize,
        )
    }

    // The messages nested in a message.
    pub fn nested_messages(&self, row: Row) -> Range
        ensures { result ≡ nested_messages self.now.words.now self.now.sections row.0 }
    {
        self.range_of(Kind::Message, row, 2)
    }

    // The enums, fields, extensions and oneofs of a message.
    pub fn enums_of(&self, row: Row) -> Range
        ensures { result ≡ enums_of self.now.words.now self.now.sections row.0 }
    {
        self.range_of(Kind::Message, row, 4)
    }

    pub fn fields_of(&self, row: Row) -> Range
        ensures { result ≡ fields_of self.now.words.now self.now.sections row.0 }
    {
        self.range_of(Kind::Message, row, 6)
    }

    pub fn extensions_of(&self, row: Row) -> Range
        ensures { result ≡ extensions_of self.now.words.now self.now.sections row.0 }
    {
        self.range_of(Kind::Message, row, 8)
    }

    pub fn oneofs_of(&self, row: Row) -> Range
        ensures { result ≡ oneofs_of self.now.words.now self.now.sections row.0 }
    {
        self.range_of(Kind::Message, row, 10)
    }

    // The values of an enum.
    pub fn values_of(&self, row: Row) -> Range
        ensures { result ≡ values_of self.now.words.now self.now.sections row.0 }
    {
        self.range_of(Kind::Enum, row, 2)
    }

    // The word at an offset of a message row.
    fn message_word(&self, row: Row, offset: u8) -> u32
        ensures { result ≡ word_at self.now.words.now (row_at self.now.sections Message row.0 + offset) }
    {
        word_at(
            self.words,
            self.sections.row_at(Kind::Message, row) + offset as usize,
        )
    }

    // A message's number of extension ranges.
    pub fn extension_ranges(&self, row: Row) -> u32
        ensures { result ≡ word_at self.now.words.now (extension_ranges_at (row_at self.now.sections Message row.0)) }
    {
        self.message_word(row, 12)
    }

    // A message's map-entry option.
    pub fn map_entry(&self, row: Row) -> u32
        ensures { result ≡ word_at self.now.words.now (map_entry_at (row_at self.now.sections Message row.0)) }
    {
        self.message_word(row, 13)
    }

    pub fn field_row(&self, row: Row) -> [u32; 16]
        ensures { result ≡ field_row self.now.words.now self.now.sections row.0 }
    {
        field_row_at(self.words, self.sections.row_at(Kind::Field, row))
    }

    // Field row `j` of a range.
    pub fn nth_field(&self, g: Range, j: u32) -> [u32; 16]
        ensures { result ≡ field_row self.now.words.now self.now.sections (g.first + j) }
    {
        field_row_at(self.words, self.sections.nth_at(Kind::Field, g, j))
    }
}
