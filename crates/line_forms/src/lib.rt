// The form of a line: its kind, its word and its numbers.
#![tactic(auto)]

ghost use Rattle.std.specs.Prelude.{◌≡◌, ◌+◌, ◌*◌, ◌≤◌, ◌<◌, length, map, option_map};
ghost use Rattle.tables.specs.Tables.{run};
ghost use Rattle.fields.specs.Fields.{fields_from, numbers_of, onto, WordAt};
ghost use Rattle.spec.specs.Forms.{node_form, line_of, form_of};
ghost use Rattle.line_forms.specs.Classes.{field_of, fields_of, rest_of, fits, class_in, FormAt, form_by_number, kind_of, OneByte, KindAt};
ghost use Rattle.line_forms.specs.Rules.{RuleIn, RuleOf, AllTried};

use Class::{Between, FloatWidth, NodeLine, PlaceLine, StorageLine, TypeLine, TypePart};
use fields::Likely;

// Kinds of lines, in their order.
#[derive(Clone, Copy, Debug, PartialEq, Eq)]
pub enum LineKind {
    Functions,
    Types,
    Storages,
    Variables,
    Statics,
    Places,
    Nodes,
}

// What a field holds: a number in a range, a float's width, or an earlier line's number.
#[derive(Clone, Copy, Debug, PartialEq, Eq)]
pub enum Class {
    Between(u64, u64),
    FloatWidth,
    TypePart,
    TypeLine,
    StorageLine,
    PlaceLine,
    NodeLine,
}

// A line's kind, its word's number and how many numbers it has. They stand behind the used part of the lists.
#[derive(Clone, Copy, Debug, PartialEq, Eq)]
pub struct Form {
    pub kind: LineKind,
    pub word: u64,
    pub count: usize,
}

/// The numbers behind a word: fields of these classes, and any number of the class of the rest, where there is one.
pub struct Rule(&'static [Class], Option<Class>);

const BIT: Class = Between(0, 1);

const SHORT: Class = Between(0, 65535);

const ANY: Class = Between(0, 18446744073709551615);

static FUNCTION: Rule = Rule(&[SHORT, SHORT], None);

static STORAGE: Rule = Rule(&[Between(0, 3), SHORT, BIT, Between(0, 511)], None);

static PLACED: Rule = Rule(&[StorageLine, SHORT, TypeLine, BIT], None);

static NO_WORD: Rule = Rule(&[], None);

static NO_NODE: Rule = Rule(&[TypeLine], None);

// A word's number is its place in its kind's table; it goes into a row of lent words, and so it is no enum.
static TYPES: [Rule; 9] = [
    Rule(&[], None),
    Rule(&[], None),
    Rule(&[Between(1, 64)], None),
    Rule(&[FloatWidth], None),
    Rule(&[], None),
    Rule(&[TypePart, SHORT], None),
    Rule(&[], Some(TypePart)),
    Rule(&[], Some(TypePart)),
    Rule(&[SHORT], None),
];

static PLACES: [Rule; 5] = [
    Rule(&[ANY], None),
    Rule(&[ANY], None),
    Rule(&[PlaceLine, ANY], None),
    Rule(&[PlaceLine, NodeLine], None),
    Rule(&[PlaceLine, NodeLine], None),
];

// A node's TYPE stands before its word.
static NODES: [Rule; 20] = [
    Rule(&[TypeLine, BIT], None),
    Rule(&[TypeLine, ANY], None),
    Rule(&[TypeLine, Between(0, 4294967295)], None),
    Rule(&[TypeLine, ANY], None),
    Rule(&[TypeLine], None),
    Rule(&[TypeLine, ANY, SHORT], None),
    Rule(&[TypeLine, SHORT], None),
    Rule(&[TypeLine, PlaceLine], None),
    Rule(&[TypeLine, Between(0, 4), NodeLine], None),
    Rule(&[TypeLine, Between(0, 18), NodeLine, NodeLine], None),
    Rule(&[TypeLine, NodeLine], None),
    Rule(&[TypeLine, NodeLine, NodeLine], None),
    Rule(&[TypeLine, Between(0, 15), NodeLine, NodeLine], None),
    Rule(&[TypeLine, Between(0, 13), NodeLine], None),
    Rule(&[TypeLine, NodeLine, NodeLine, NodeLine], None),
    Rule(&[TypeLine, PlaceLine], None),
    Rule(&[TypeLine, NodeLine, NodeLine], None),
    Rule(&[TypeLine], Some(NodeLine)),
    Rule(&[TypeLine, NodeLine, ANY], None),
    Rule(&[TypeLine, NodeLine, ANY, NodeLine], None),
];

fn rule_in(rules: &'static [Rule], word: u64, other: &'static Rule) -> &'static Rule
    ensures { RuleIn rules.now word other.now result.now }
{
    rules.get(word as usize).unwrap_or(other)
}

/// The rule of a kind's word.
pub fn rule_of(kind: LineKind, word: u64) -> &'static Rule
    ensures { RuleOf kind word result.now }
{
    match kind {
        LineKind::Functions => &FUNCTION,
        LineKind::Types => rule_in(&TYPES, word, &NO_WORD),
        LineKind::Storages => &STORAGE,
        LineKind::Variables | LineKind::Statics => &PLACED,
        LineKind::Places => rule_in(&PLACES, word, &NO_WORD),
        LineKind::Nodes => rule_in(&NODES, word, &NO_NODE),
    }
}

impl Rule {
    /// The class of field i.
    pub fn class(&self, i: u64) -> Class
        ensures { field_of result ≡ class_in (map field_of self.now.0.now) (option_map field_of self.now.1) i }
    {
        match self.0.get(i as usize) {
            Some(class) => *class,
            None => self.1.unwrap_or(SHORT),
        }
    }
}

fn count_fits(kind: LineKind, word: u64, count: usize) -> bool
    ensures { result ≡ fits (fields_of kind word) (rest_of kind word) count }
{
    let rule = rule_of(kind, word);
    match rule.1 {
        Some(_) => rule.0.len() <= count,
        None => rule.0.len() == count,
    }
}

// Words, where each stands among them, and which is likely by what `mixed` gives of it: one past the last where none is.
struct Words {
    all: &'static [u8],
    spans: &'static [(u8, u8)],
    likely: [u8; 32],
}

static TYPE_WORDS: Words = Words {
    all: b"unit,bool,bits,float,pointer,array,struct,tuple,opaque",
    spans: &[
        (0, 4),
        (5, 9),
        (10, 14),
        (15, 20),
        (21, 28),
        (29, 34),
        (35, 41),
        (42, 47),
        (48, 54),
    ],
    likely: [
        2, 8, 9, 9, 4, 0, 9, 9, 3, 9, 9, 9, 7, 9, 9, 9, 9, 9, 1, 9, 9, 6, 9, 9, 9, 9, 9, 5, 9, 9,
        9, 9,
    ],
};

static PLACE_WORDS: Words = Words {
    all: b"variable,static,field,element,offset",
    spans: &[(0, 8), (9, 15), (16, 21), (22, 29), (30, 36)],
    likely: [
        0, 5, 5, 1, 5, 5, 2, 5, 5, 5, 5, 5, 5, 5, 5, 3, 5, 5, 5, 5, 5, 5, 5, 5, 5, 5, 5, 5, 5, 4,
        5, 5,
    ],
};

static NODE_WORDS: Words = Words {
    all: b"bool,int,f32,f64,null,staticaddress,function,read,unary,binary,funary,fbinary,compare,convert,select,address,offset,aggregate,extract,insert",
    spans: &[
        (0, 4),
        (5, 8),
        (9, 12),
        (13, 16),
        (17, 21),
        (22, 35),
        (36, 44),
        (45, 49),
        (50, 55),
        (56, 62),
        (63, 69),
        (70, 77),
        (78, 85),
        (86, 93),
        (94, 100),
        (101, 108),
        (109, 115),
        (116, 125),
        (126, 133),
        (134, 140),
    ],
    likely: [
        10, 1, 7, 5, 20, 14, 4, 20, 20, 20, 20, 12, 20, 17, 2, 13, 20, 8, 0, 19, 6, 15, 20, 20, 20,
        18, 11, 20, 9, 16, 3, 20,
    ],
};

// A number below 32 by three bytes of a word, another for each word of a kind: comparing each in turn is slower.
fn mixed(line: &[u8], at: usize) -> usize
    ensures { result < 32 }
{
    match line.get(at..) {
        Some([a, _, b, c, ..]) => (usize::from(*a) + usize::from(*b) * 8 + usize::from(*c) * 10)
            % 32,
        _ => 0,
    }
}

// The place of the field at a position among the words, and where the field behind it starts: a look-up, and no conversion.
fn word(line: &[u8], at: usize, words: &Words) -> Option<(u64, usize)>
    requires { AllTried words.now }
    ensures { WordAt line.now words.now.all.now at result }
{
    let k = words.likely[mixed(line, at)];
    match words.spans.get(usize::from(k)) {
        Some((start, end)) => {
            let likely = Likely {
                place: u64::from(k),
                start: usize::from(*start),
                end: usize::from(*end),
            };
            fields::word_tried(line, at, words.all, likely)
        }
        None => fields::word(line, at, words.all),
    }
}

// A line's text, and the lists that its numbers go into.
#[derive(Drop)]
struct LineText<'a> {
    line: &'a [u8],
    lists: &'a mut [u64],
    used: usize,
    ghost room: { used * 2 + length line.now ≤ length lists.now * 2 },
}

impl LineText<'_> {
    // The numbers to the line's end, behind `first` that stand there already.
    #[tactic(auto, using(crate::proofs::NumberLaws::numbered_laws))]
    fn numbered(&mut self, at: usize, first: usize, kind: LineKind, word: u64) -> Option<Form>
        requires { (first * 2 + 1 ≤ at) × (at ≤ length self.old.line.now + 1) }
        ensures same { self.new.lists.ghost_name ≡ self.old.lists.ghost_name }
        ensures form { FormAt (form_by_number kind word (onto (run self.old.lists.now self.old.used first) (numbers_of (fields_from self.old.line.now at))))
            self.old.line.now self.old.lists.now self.new.lists.now self.old.used result }
    {
        let from = self.used + first;
        let count = first + fields::numbers(self.line, at, self.lists, from)?;
        if count_fits(kind, word, count) {
            Some(Form { kind, word, count })
        } else {
            None
        }
    }

    // A node's TYPE stands before its word.
    #[tactic(auto, using(crate::proofs::LineForms::formed))]
    fn node_form(&mut self, at: usize) -> Option<Form>
        requires { 1 ≤ at }
        ensures same { self.new.lists.ghost_name ≡ self.old.lists.ghost_name }
        ensures form { FormAt (node_form (fields_from self.old.line.now at))
            self.old.line.now self.old.lists.now self.new.lists.now self.old.used result }
    {
        let (ty, behind) = fields::number(self.line, at)?;
        let (w, next) = word(self.line, behind, &NODE_WORDS)?;
        self.lists[self.used] = ty;
        self.numbered(next, 1, LineKind::Nodes, w)
    }

    // What stands from a position on in a line of a kind.
    #[tactic(auto, using(crate::proofs::LineForms::formed))]
    fn form_of(&mut self, kind: LineKind, at: usize) -> Option<Form>
        requires { (1 ≤ at) × (at ≤ length self.old.line.now + 1) }
        ensures same { self.new.lists.ghost_name ≡ self.old.lists.ghost_name }
        ensures form { FormAt (form_of (kind_of kind) (fields_from self.old.line.now at))
            self.old.line.now self.old.lists.now self.new.lists.now self.old.used result }
    {
        match kind {
            LineKind::Types => {
                let (w, next) = word(self.line, at, &TYPE_WORDS)?;
                self.numbered(next, 0, kind, w)
            }
            LineKind::Places => {
                let (w, next) = word(self.line, at, &PLACE_WORDS)?;
                self.numbered(next, 0, kind, w)
            }
            LineKind::Nodes => self.node_form(at),
            _ => self.numbered(at, 0, kind, 0),
        }
    }
}

// The byte that is a line's first field.
fn first_byte(line: &[u8]) -> Option<u8>
    ensures { OneByte line.now result }
{
    if line.len() > 1 && line[1] != b',' {
        return None;
    }
    line.first().copied()
}

#[tactic(auto, using(crate::proofs::KindLaws::letters))]
fn line_kind(line: &[u8]) -> Option<LineKind>
    ensures { KindAt line.now result }
{
    match first_byte(line)? {
        b'f' => Some(LineKind::Functions),
        b't' => Some(LineKind::Types),
        b's' => Some(LineKind::Storages),
        b'v' => Some(LineKind::Variables),
        b'g' => Some(LineKind::Statics),
        b'p' => Some(LineKind::Places),
        b'n' => Some(LineKind::Nodes),
        _ => None,
    }
}

/// The form of a line without its line feed. Its numbers go into the lists, behind the first `used`: one lent slice for all lines, as there is
/// no heap.
#[tactic(auto, using(crate::proofs::LineForms::formed))]
pub fn line_form(line: &[u8], lists: &mut [u64], used: usize) -> Option<Form>
    requires { used * 2 + length line.now ≤ length lists.old * 2 }
    ensures { FormAt (line_of line.now) line.now lists.old lists.new used result }
{
    let kind = line_kind(line)?;
    let mut text = LineText { line, lists, used };
    text.form_of(kind, 2)
}
