//! The names that are visible.

ghost use Rattle.std.specs.Prelude.{◌≡◌};
ghost use Rattle.nest_grammar.specs.Names.{place_of, fresh, target};
ghost use Rattle.nest_text.specs.Answers.{Gives};

use crate::reader::Reader;
use crate::refusal::ReadRefusal;
use nest_grammar::{Declared, TextKind};
use nest_lang::Place;
use nest_tokens::{Name, Token};

/// What a name stands for, where it is visible.
#[tactic(auto, unfolding(nest_grammar::specs::Names::place_of))]
pub fn place_of(names: &[Declared], name: Name) -> Option<Place>
    ensures { result ≡ place_of names.now name }
{
    for declared in names {
        if declared.name.bytes == name.bytes {
            return Some(declared.place);
        }
    }
    None
}

impl<'a> Reader<'a> {
    /// Goes past a name that is declared here.
    #[tactic(auto, unfolding(nest_grammar::specs::Names::fresh, nest_grammar::specs::Readings::refused))]
    pub fn fresh(&mut self, names: &[Declared]) -> Result<Name, ReadRefusal>
        ensures { Gives result self.new (fresh names.now self.old) }
    {
        match self.token() {
            Token::Name(name) => match place_of(names, name) {
                Some(_) => Err(ReadRefusal::Text(self.fault(TextKind::Known))),
                None => {
                    self.skip();
                    Ok(name)
                }
            },
            _ => Err(ReadRefusal::Text(self.unexpected())),
        }
    }

    /// Goes past the name of a scalar that is given a value, and gives the scalar's number.
    #[tactic(auto, unfolding(nest_grammar::specs::Names::target, nest_grammar::specs::Readings::refused))]
    pub fn target(&mut self, names: &[Declared], name: Name) -> Result<u8, ReadRefusal>
        ensures { Gives result self.new (target names.now name self.old) }
    {
        match place_of(names, name) {
            Some(Place::Scalar(number)) => {
                self.skip();
                Ok(number)
            }
            Some(_) => Err(ReadRefusal::Text(self.fault(TextKind::Fixed))),
            None => Err(ReadRefusal::Text(self.fault(TextKind::Unknown))),
        }
    }
}
