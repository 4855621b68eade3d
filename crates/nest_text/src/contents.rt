//! Scalars, nests and whole files.

ghost use Rattle.std.specs.Prelude.{◌≡◌, ◌<◌, ◌++◌, ◌∷◌, [], length, IfOk, OnOk};
ghost use Rattle.nest_grammar.specs.Names.{names_of};
ghost use Rattle.nest_grammar.specs.Contents.{version, scalar, scalars, unit, next_unit, other_units, units, contents};
ghost use Rattle.nest_grammar.specs.declared.version.Version.TheVariants.{Two as VersionTwo};
ghost use Rattle.nest_grammar.specs.declared.opening.LoopKeyword.TheVariants.{For as ForWord};
ghost use Rattle.nest_text.specs.Answers.{Gives, GivesAs};
ghost use Rattle.nest_text.specs.Parts.{version_of};

use crate::limits::{MOST_NESTS, MOST_SCALARS, most_depth};
use crate::nesting::loop_keyword;
use crate::reader::Reader;
use crate::refusal::ReadRefusal;
use nest_grammar::{Declared, File, NestUnit, Scalar, TextKind, Version};
use nest_lang::{Nest, Place};
use nest_tokens::Mark;
use sqlite_items::Items;

/// The version of this number.
#[tactic(auto, unfolding(crate::specs::Parts::version_of))]
fn version_of(number: u64) -> Option<Version>
    ensures { result ≡ version_of number }
{
    match number {
        1 => Some(Version::One),
        2 => Some(Version::Two),
        _ => None,
    }
}

impl<'a> Reader<'a> {
    /// Reads `nest` and the version.
    #[tactic(auto, using(crate::proofs::ProductionLaws::versions), unfolding(nest_grammar::specs::Contents::version, nest_grammar::specs::Readings::refused))]
    fn version(&mut self) -> Result<Version, ReadRefusal>
        ensures { Gives result self.new (version self.old) }
    {
        self.need(Mark::Nest)?;
        let number = self.number_here()?;
        match version_of(number) {
            Some(version) => {
                self.skip();
                self.version = version;
                Ok(version)
            }
            None => Err(ReadRefusal::Text(self.fault(TextKind::Version))),
        }
    }

    /// Reads a scalar behind others with these names.
    #[tactic(auto, unfolding(nest_grammar::specs::Readings::obeys))]
    fn scalar(&mut self, scalars: &[Scalar], names: &[Declared]) -> Result<Scalar, ReadRefusal>
        requires { names.now ≡ names_of scalars.now }
        ensures read { GivesAs (λ c. scalars.now ++ c ∷ []) result self.new (scalar scalars.now self.old) }
        ensures room { OnOk result (length scalars.now < 16) }
    {
        self.obey(scalars.len() < MOST_SCALARS, TextKind::Many)?;
        self.skip();
        let name = self.fresh(names)?;
        self.need(Mark::Assign)?;
        let value = self.signed()?;
        Ok(Scalar { name, value })
    }

    /// Reads the scalars, and adds their names.
    #[tactic(auto, using(crate::proofs::MarkedPartLaws::scalar_loop), unfolding(nest_grammar::specs::Contents::scalars))]
    fn scalars(&mut self, names: &mut Vec<Declared>) -> Result<Items<Scalar>, ReadRefusal>
        requires { names.old.items ≡ [] }
        ensures read { Gives result self.new (scalars self.old) }
        ensures names { IfOk result (λ cs. names.new.items ≡ names_of cs) }
    {
        let mut scalars = Items::new(self.alloc);
        'scalars: while self.token().is(Mark::Scalar) {
            let scalar = self.scalar(scalars.as_slice(), names.as_slice())?;
            names.push(Declared {
                name: scalar.name,
                place: Place::Scalar(scalars.len() as u8),
            })?;
            scalars.push(scalar)?;
        }
        Ok(scalars)
    }

    /// Reads a nest and its candidates.
    #[tactic(auto, unfolding(nest_grammar::specs::Contents::unit))]
    fn unit(&mut self, names: &mut Vec<Declared>) -> Result<NestUnit, ReadRefusal>
        ensures read { Gives result self.new (unit names.old.items self.old) }
        ensures kept { OnOk result (names.new.items ≡ names.old.items) }
    {
        let version = self.version;
        let (loops, loop_names) = self.loops(names, most_depth(version), 0)?;
        let scripts = self.candidates(loops.len() as u8)?;
        Ok(NestUnit {
            nest: Nest { loops },
            names: loop_names,
            scripts,
        })
    }

    /// Reads a nest behind so many others.
    fn next_unit(
        &mut self,
        names: &mut Vec<Declared>,
        before: &[NestUnit],
    ) -> Result<NestUnit, ReadRefusal>
        ensures read { GivesAs (λ u. before.now ++ u ∷ []) result self.new (next_unit names.old.items ForWord before.now self.old) }
        ensures kept { OnOk result (names.new.items ≡ names.old.items) }
    {
        self.obey(before.len() < MOST_NESTS, TextKind::Many)?;
        self.unit(names)
    }

    /// Reads the nests of a file of version 2.
    #[tactic(auto, using(crate::proofs::MarkedPartLaws::unit_loop))]
    fn several_units(
        &mut self,
        names: &mut Vec<Declared>,
        mut units: Items<NestUnit>,
    ) -> Result<Items<NestUnit>, ReadRefusal>
        ensures read { Gives result self.new (other_units VersionTwo names.old.items units self.old) }
        ensures kept { OnOk result (names.new.items ≡ names.old.items) }
    {
        'units: while let Some(_) = loop_keyword(self.token()) {
            let unit = self.next_unit(names, units.as_slice())?;
            units.push(unit)?;
        }
        Ok(units)
    }

    /// Reads the nests of a file.
    #[tactic(auto, unfolding(nest_grammar::specs::Contents::units))]
    fn units(
        &mut self,
        version: Version,
        names: &mut Vec<Declared>,
    ) -> Result<Items<NestUnit>, ReadRefusal>
        ensures { Gives result self.new (units version names.old.items self.old) }
    {
        let mut units = Items::new(self.alloc);
        let first = self.unit(names)?;
        units.push(first)?;
        match version {
            Version::One => Ok(units),
            Version::Two => self.several_units(names, units),
        }
    }

    /// Reads all of a file.
    #[tactic(auto, unfolding(nest_grammar::specs::Contents::contents))]
    pub fn contents(&mut self) -> Result<File, ReadRefusal>
        ensures { Gives result self.new (contents self.old) }
    {
        let mut names = Vec::new(self.alloc);
        let version = self.version()?;
        let scalars = self.scalars(&mut names)?;
        let words = self.memory()?;
        let items = self.items(words)?;
        let units = self.units(version, &mut names)?;
        self.end()?;
        Ok(File {
            version,
            scalars,
            words,
            items,
            units,
        })
    }
}
