//! How a judgement allocates matches: one for all equal ones, as far as these are found.

ghost use Rattle.std.specs.Prelude.{◌≡◌, IfSome, IfOk};
ghost use Rattle.path_checker.specs.Matches.{stated_by, match_of};

use crate::judge_plan::held::Held;
use crate::judge_plan::mark::{number_of, print_of};
use crate::judge_plan::matches::Match;
use crate::judge_plan::memory::{LastTold, Memory};
use crate::judge_plan::stated::Stated;
use std::alloc::AllocError;

// Once as many were made after a search, all are forgotten, and equal ones may be made again. It stays small, since a
// search among many takes longer than a new match.
const MANY: usize = 2_048;

impl<'a> Match<'a> {
    /// A match in memory that states share, made without a search for an equal one.
    pub(crate) fn unsearched(
        memory: Memory<'a>,
        stated: Stated<'a>,
    ) -> Result<&'a Match<'a>, AllocError>
        ensures { IfOk result (λ own. match_of own.now ≡ stated_by stated.entry) }
    {
        memory.count_made();
        let own = Match::new(stated);
        let lent = memory.last.arena.try_alloc(own)?;
        Ok(lent)
    }

    // A match in memory that states share: an equal one, if a search finds it, or a new one.
    fn made(memory: Memory<'a>, stated: Stated<'a>) -> Result<&'a Match<'a>, AllocError>
        ensures { IfOk result (λ own. match_of own.now ≡ stated_by stated.entry) }
    {
        if memory.skips_search() {
            return Match::unsearched(memory, stated);
        }
        let own = Match::new(stated);
        let mut all = memory.last.matches.replace(Held::none());
        if all.len() >= MANY {
            memory.pause_searches(all.len());
            all = Held::none();
        }
        let lent = all.lent(memory, own)?;
        memory.last.matches.set(all);
        Ok(lent)
    }

    /// One of the last two matches of the command at a place at a component, if it is for this digest and this size.
    pub(crate) fn told_last(
        memory: Memory<'a>,
        place: u64,
        component: u32,
        stated: Stated<'_>,
    ) -> Option<LastTold<'a>>
        ensures { IfSome result (λ told. match_of told.own.now ≡ stated_by stated.entry) }
    {
        let size = stated.size.unwrap_or(0);
        for second in &[false, true] {
            if let Some(last) = memory.told_at(place, component, *second, size) {
                if last.own.is_of(stated) {
                    return Some(last);
                }
            }
        }
        None
    }

    /// A match in memory that states share, which the command at the place then used last.
    pub(crate) fn lent(
        memory: Memory<'a>,
        place: u64,
        component: u32,
        stated: Stated<'a>,
    ) -> Result<&'a Match<'a>, AllocError>
        ensures { IfOk result (λ own. match_of own.now ≡ stated_by stated.entry) }
    {
        let own = if !memory.has_plenty() && memory.passes_used() {
            Match::unsearched(memory, stated)?
        } else {
            Match::used(memory, stated)?
        };
        memory.keep_told(place, component, own, usize::MAX)?;
        Ok(own)
    }

    // A match in memory that states share. Recently used ones are tried first.
    #[inline(never)]
    fn used(memory: Memory<'a>, stated: Stated<'a>) -> Result<&'a Match<'a>, AllocError>
        ensures { IfOk result (λ own. match_of own.now ≡ stated_by stated.entry) }
    {
        let salt = memory.last.salt;
        let number = if memory.has_plenty() {
            print_of(stated, salt)
        } else {
            number_of(stated, salt)
        };
        for second in &[false, true] {
            if let Some(last) = memory.used(number, *second) {
                if last.is_of(stated) {
                    memory.count_reused();
                    return Ok(last);
                }
            }
        }
        let own = Match::made(memory, stated)?;
        memory.keep_used(number, own)?;
        Ok(own)
    }
}
