//! The version, the script and the question of a document, as they are read.
ghost use Rattle.uhura_item.specs.Item.{IsItem};
ghost use Rattle.uhura_cert.specs.Machine.{FromStart, FromScript, FromQuestion};
ghost use Rattle.uhura_cert.specs.Reading.{spot_of, StepsTo};

use super::Reader;
use crate::place::Place;
use crate::script_line::take_command;
use std::alloc::{AllocError, Global};
use uhura_command::State;
use uhura_item::Item;

impl Reader {
    /// The line of the version.
    pub(crate) fn in_start(&mut self, alloc: Global, item: &Item) -> Result<bool, AllocError>
        ensures { StepsTo result (FromStart item.now) (spot_of self.new) }
    {
        let Item::Version(version) = item else {
            return Ok(false);
        };
        self.place = Place::Script;
        self.version = *version;
        self.state = State::new(alloc)?;
        Ok(true)
    }

    /// Another line of the script, or the question.
    pub(crate) fn in_script(&mut self, item: &Item) -> Result<bool, AllocError>
        requires { IsItem item.now }
        ensures { StepsTo result (FromScript self.old.version self.old.state item.now)
            (spot_of self.new) }
    {
        match item {
            Item::Command(command) => {
                self.place = Place::Script;
                take_command(&mut self.state, command)
            }
            Item::Answer => {
                self.place = Place::Question;
                Ok(true)
            }
            _ => Ok(false),
        }
    }

    /// The first line of the answer.
    pub(crate) fn in_question(&mut self, alloc: Global, item: &Item) -> Result<bool, AllocError>
        ensures { StepsTo result (FromQuestion self.old.version self.old.state item.now)
            (spot_of self.new) }
    {
        match item {
            Item::Nothing => {
                self.begin_entries(alloc, None);
                Ok(true)
            }
            Item::Proposal(cost) => {
                self.place = Place::Picks;
                self.cost = *cost;
                self.picks = Vec::new(alloc);
                Ok(true)
            }
            _ => Ok(false),
        }
    }
}
