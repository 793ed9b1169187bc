//! Specifiers of declarations (ISO/IEC 9899:1990, 6.5.1 to 6.5.3).

ghost use Rattle.std.specs.Prelude.{◌≡◌, ◌&&◌, ◌||◌, not};
ghost use Rattle.std.specs.Option.{option_map};
ghost use Rattle.c_tables.specs.Answers.{Answers};
ghost use Rattle.c_tables.specs.Tables.{types_in, waiting_of};
ghost use Rattle.type_rules.specs.Known as rule_known;
ghost use Rattle.type_rules.specs.Known.{Known};
ghost use Rattle.type_rules.specs.Names as names;
ghost use Rattle.type_rules.specs.Rows.{is_complete};
ghost use Rattle.type_rules.specs.Specifiers as rule;
ghost use Rattle.type_rules.specs.Specifiers.{Gathered};
ghost use Rattle.c_outline.specs.Gathering as gathering;
ghost use Rattle.c_outline.specs.Gathering.{base_of, kept_of, named_of};
ghost use Rattle.c_outline.specs.Views as views;

use c_ints::IntTy;
use c_tables::error::{CheckError, Kind, refused};
use c_tables::scope::{Waiting, is_waiting};
use c_tables::types::{Types, plain};
use c_token::Keyword;
use c_typed::{Qualified, Ty};

/// Where specifiers stand.
#[derive(Clone, Copy, PartialEq, Eq)]
pub enum Site {
    File,
    Block,
    Member,
    Param,
    TypeName,
}

/// A word on storage, or none. `typedef` counts as one (ISO/IEC 9899:1990, 6.5.1).
#[derive(Clone, Copy, PartialEq, Eq)]
pub enum Storage {
    Plain,
    Typedef,
    Static,
    Auto,
    Register,
}

/// What names a type without a word: the structure of a number, an enumeration, or the name of a type, with what that waits for.
#[derive(Clone, Copy)]
pub enum Base {
    Structure(usize),
    Enumeration,
    Named { ty: Qualified, waiting: Waiting },
}

/// The specifiers that were read so far. `bad` says that no declaration has them.
#[derive(Clone, Copy)]
pub struct Words {
    void: bool,
    char: bool,
    short: bool,
    int: bool,
    long: bool,
    signed: bool,
    unsigned: bool,
    base: Option<Base>,
    constant: bool,
    volatile: bool,
    storage: Storage,
    interrupt: bool,
    bad: bool,
}

/// What specifiers say: a type, what it waits for, a word on storage, and whether `interrupt` stands among them. `line` is that of the
/// first.
#[derive(Clone, Copy)]
pub struct Specified {
    pub ty: Qualified,
    pub waiting: Waiting,
    pub storage: Storage,
    pub interrupt: bool,
    pub line: u32,
}

fn is_plain(storage: Storage) -> bool
    ensures { result ≡ gathering.is_plain storage }
{
    match storage {
        Storage::Plain => true,
        Storage::Typedef | Storage::Static | Storage::Auto | Storage::Register => false,
    }
}

fn is_static(storage: Storage) -> bool
    ensures { result ≡ views.is_static storage }
{
    match storage {
        Storage::Static => true,
        Storage::Plain | Storage::Typedef | Storage::Auto | Storage::Register => false,
    }
}

pub fn is_register(storage: Storage) -> bool
    ensures { result ≡ views.is_register storage }
{
    match storage {
        Storage::Register => true,
        Storage::Plain | Storage::Typedef | Storage::Static | Storage::Auto => false,
    }
}

/// Whether it is `typedef`.
pub fn is_typedef(storage: Storage) -> bool
    ensures { result ≡ views.is_typedef storage }
{
    match storage {
        Storage::Typedef => true,
        Storage::Plain | Storage::Static | Storage::Auto | Storage::Register => false,
    }
}

fn is_automatic(storage: Storage) -> bool
    ensures { result ≡ (gathering.is_auto storage || views.is_register storage) }
{
    match storage {
        Storage::Auto | Storage::Register => true,
        Storage::Plain | Storage::Typedef | Storage::Static => false,
    }
}

fn of_int(ty: Option<IntTy>) -> Option<Ty>
    ensures { result ≡ rule.of_int ty }
{
    match ty {
        Some(ty) => Some(Ty::Int(ty)),
        None => None,
    }
}

// The type that specifiers name: with its own qualifiers, and what it waits for.
#[derive(Clone, Copy)]
struct NamedType {
    ty: Qualified,
    waiting: Waiting,
}

fn wholly(ty: Qualified) -> NamedType
    ensures { named_of result ≡ record { ty = ty; waiting = rule_known.Whole } }
{
    NamedType {
        ty,
        waiting: Waiting::Whole,
    }
}

fn plainly(ty: Ty) -> NamedType
    ensures { named_of result ≡ rule.plainly ty }
{
    wholly(plain(ty))
}

fn named_by(base: Base) -> NamedType
    ensures { named_of result ≡ rule.named_by (base_of base) }
{
    match base {
        Base::Structure(number) => plainly(Ty::Struct(number)),
        Base::Enumeration => plainly(Ty::Int(IntTy::Int)),
        Base::Named { ty, waiting } => NamedType { ty, waiting },
    }
}

/// An array more, round those that wait.
pub fn waits(count: u32, waiting: Waiting) -> Waiting
    ensures { waiting_of result ≡ rule_known.waits count (waiting_of waiting) }
{
    match waiting {
        Waiting::Whole => Waiting::OneArray(count),
        Waiting::OneArray(inner) => Waiting::TwoArrays(count, inner),
        Waiting::TwoArrays(..) | Waiting::Never => Waiting::Never,
    }
}

// Whether an array can be made of this.
fn is_element(types: &Types, inner: NamedType) -> bool
    ensures { (known : Known) → result ≡ (not (rule_known.is_waiting (waiting_of inner.waiting)) && is_complete (types_in types.now known) inner.ty.ty) }
{
    !is_waiting(inner.waiting) && types.is_complete(inner.ty.ty)
}

// An array of this, where that is complete by now; otherwise it waits.
fn grown(types: &mut Types, count: u32, inner: NamedType) -> Result<NamedType, CheckError>
    ensures { (known : Known) → Answers named_of result (types_in types.new known) (rule.grown count (named_of inner) (types_in types.old known)) }
{
    if !is_element(types, inner) {
        return Ok(NamedType {
            ty: inner.ty,
            waiting: waits(count, inner.waiting),
        });
    }
    let ty = types.array_of(inner.ty, count)?;
    Ok(wholly(ty))
}

// Arrays that wait are tried again, the inner one first.
fn remade(types: &mut Types, named: NamedType) -> Result<NamedType, CheckError>
    ensures { (known : Known) → Answers named_of result (types_in types.new known) (rule.remade named.ty (waiting_of named.waiting) (types_in types.old known)) }
{
    match named.waiting {
        Waiting::Whole | Waiting::Never => Ok(named),
        Waiting::OneArray(count) => grown(types, count, wholly(named.ty)),
        Waiting::TwoArrays(outer, inner) => {
            let element = grown(types, inner, wholly(named.ty))?;
            grown(types, outer, element)
        }
    }
}

impl Words {
    /// No specifiers.
    pub fn none() -> Words
        ensures { result ≡ kept_of rule.nothing_gathered }
    {
        Words {
            void: false,
            char: false,
            short: false,
            int: false,
            long: false,
            signed: false,
            unsigned: false,
            base: None,
            constant: false,
            volatile: false,
            storage: Storage::Plain,
            interrupt: false,
            bad: false,
        }
    }

    // Whether a word was said before, or another one on storage.
    fn has_said(&self, keyword: Keyword) -> bool
        ensures { result ≡ gathering.is_said keyword self.now }
    {
        match keyword {
            Keyword::Void => self.void,
            Keyword::Char => self.char,
            Keyword::Short => self.short,
            Keyword::Int => self.int,
            Keyword::Long => self.long,
            Keyword::Signed => self.signed,
            Keyword::Unsigned => self.unsigned,
            Keyword::Const => self.constant,
            Keyword::Volatile => self.volatile,
            Keyword::Typedef | Keyword::Static | Keyword::Auto | Keyword::Register => {
                !is_plain(self.storage)
            }
            _ => false,
        }
    }

    // Sets what a word says. A keyword that is no specifier says nothing.
    fn say(&mut self, keyword: Keyword)
        ensures { self.new ≡ gathering.with_flag keyword self.old }
    {
        match keyword {
            Keyword::Void => self.void = true,
            Keyword::Char => self.char = true,
            Keyword::Short => self.short = true,
            Keyword::Int => self.int = true,
            Keyword::Long => self.long = true,
            Keyword::Signed => self.signed = true,
            Keyword::Unsigned => self.unsigned = true,
            Keyword::Const => self.constant = true,
            Keyword::Volatile => self.volatile = true,
            Keyword::Typedef => self.storage = Storage::Typedef,
            Keyword::Static => self.storage = Storage::Static,
            Keyword::Auto => self.storage = Storage::Auto,
            Keyword::Register => self.storage = Storage::Register,
            Keyword::Interrupt => self.interrupt = true,
            _ => {}
        }
    }

    /// These specifiers with a word more.
    pub fn with_word(self, keyword: Keyword) -> Words
        ensures { result ≡ gathering.worded keyword self }
    {
        let mut words = self;
        words.bad = self.bad || self.has_said(keyword);
        words.say(keyword);
        words
    }

    /// These specifiers with a type more that needs no word.
    pub fn with_base(self, base: Base) -> Words
        ensures { result ≡ gathering.based base self }
    {
        let mut words = self;
        words.bad = self.bad || self.base.is_some();
        words.base = Some(base);
        words
    }

    fn has_int_word(&self) -> bool
        ensures { result ≡ gathering.has_int_word self.now }
    {
        self.short || self.int || self.long || self.signed || self.unsigned
    }

    fn char_type(&self) -> Option<IntTy>
        ensures { result ≡ gathering.char_type self.now }
    {
        if self.short || self.int || self.long || (self.signed && self.unsigned) {
            None
        } else if self.signed {
            Some(IntTy::SChar)
        } else if self.unsigned {
            Some(IntTy::UChar)
        } else {
            Some(IntTy::Char)
        }
    }

    // `short`, `int`, `long`, each with `signed` or `unsigned` or neither.
    fn wide_type(&self) -> IntTy
        ensures { result ≡ gathering.wide_type self.now }
    {
        if self.short {
            if self.unsigned {
                IntTy::UShort
            } else {
                IntTy::Short
            }
        } else if self.long {
            if self.unsigned {
                IntTy::ULong
            } else {
                IntTy::Long
            }
        } else if self.unsigned {
            IntTy::UInt
        } else {
            IntTy::Int
        }
    }

    fn int_type(&self) -> Option<IntTy>
        ensures { result ≡ gathering.int_type self.now }
    {
        if (self.signed && self.unsigned) || (self.short && self.long) {
            None
        } else {
            Some(self.wide_type())
        }
    }

    // The type that the words name where nothing else names one.
    fn word_type(&self) -> Option<Ty>
        ensures { result ≡ gathering.word_type self.now }
    {
        if self.void {
            if self.char || self.has_int_word() {
                None
            } else {
                Some(Ty::Void)
            }
        } else if self.char {
            of_int(self.char_type())
        } else if self.has_int_word() {
            of_int(self.int_type())
        } else {
            None
        }
    }

    // The type that the specifiers name together (ISO/IEC 9899:1990, 6.5.2).
    fn named(&self) -> Option<NamedType>
        ensures { option_map named_of result ≡ gathering.base_type self.now self.now.base }
    {
        match self.base {
            Some(base) => {
                if self.void || self.char || self.has_int_word() {
                    None
                } else {
                    Some(named_by(base))
                }
            }
            None => Some(plainly(self.word_type()?)),
        }
    }

    // Whether no qualifier stands both beside a type's name and in the type.
    fn qualifies_once(&self, ty: Qualified) -> bool
        ensures { result ≡ gathering.qualifies_once self.now ty }
    {
        !(self.constant && ty.constant) && !(self.volatile && ty.volatile)
    }

    // The type with the qualifiers that stand beside it.
    fn qualified(&self, ty: Qualified) -> Qualified
        ensures { result ≡ record { ty = ty.ty; constant = self.now.constant || ty.constant; volatile = self.now.volatile || ty.volatile } }
    {
        Qualified {
            ty: ty.ty,
            constant: self.constant || ty.constant,
            volatile: self.volatile || ty.volatile,
        }
    }

    // Whether the words on storage, and `interrupt`, may stand at a site.
    fn fits(&self, site: Site, in_file: bool) -> bool
        ensures { result ≡ gathering.fits self.now site in_file }
    {
        match site {
            Site::File => !is_automatic(self.storage),
            Site::Block => !is_typedef(self.storage),
            Site::Member => is_plain(self.storage) && !self.interrupt,
            Site::Param => {
                (is_plain(self.storage) || is_register(self.storage)) && !self.interrupt
            }
            Site::TypeName => {
                !(is_typedef(self.storage) || is_static(self.storage))
                    && !self.interrupt
                    && !(is_automatic(self.storage) && in_file)
            }
        }
    }

    // Whether no declaration has them together, or they may not stand at a site.
    fn is_refused(&self, ty: Qualified, site: Site, in_file: bool) -> bool
        ensures { result ≡ (self.now.bad || (not (gathering.qualifies_once self.now ty) || not (gathering.fits self.now site in_file))) }
    {
        self.bad || (!self.qualifies_once(ty) || !self.fits(site, in_file))
    }

    /// What the specifiers say at a site. `line` is that of the first of them, and `in_file` says that no
    /// block is open.
    pub fn finished(
        self,
        types: &mut Types,
        site: Site,
        in_file: bool,
        line: u32,
    ) -> Result<Specified, CheckError>
        ensures { (g : Gathered) (known : Known) → self ≡ kept_of g → in_file ≡ names.in_file known → Answers views.specified_of result (types_in types.new known) (rule.specifiers (views.site_of site) g line (types_in types.old known)) }
    {
        let Some(named) = self.named() else {
            return refused(Kind::Declare, line);
        };
        if self.is_refused(named.ty, site, in_file) {
            return refused(Kind::Declare, line);
        }
        let whole = remade(types, named)?;
        Ok(Specified {
            ty: self.qualified(whole.ty),
            waiting: whole.waiting,
            storage: self.storage,
            interrupt: self.interrupt,
            line,
        })
    }
}
