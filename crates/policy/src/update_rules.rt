ghost use Rattle.std.specs.Prelude.{◌≡◌, IfOk, OnErr, OnOk, map as each, nat_eq, option_copied};
ghost use Rattle.std.specs.FinMap as map;
ghost use Rattle.couch_json.specs.View.{view};
ghost use Rattle.policy.specs.UpdateRules.{holds, rules_of, update_refusal, with_rule};
ghost use Rattle.selector.specs.Grammar.{rule_selector_in};

use couch_json::{Got, Json, NoMemory};
use selector::{RuleSelector, SelectorFault};
use std::alloc::Global;
use std::collections::BTreeMap;
use std::marker::Model;
use tree::DocId;

/// The update rules of a database, by the ids of the design documents that declare them.
///
/// A rule is the `validate_doc_update` of a design document: a [`RuleSelector`], which has to be
/// true of the [`argument`](crate::argument) of each write. What is none is a rule that no write
/// meets. See the CouchDB manual, ddocs/ddocs.
pub struct RuleSet {
    alloc: Global,
    rules: BTreeMap<DocId, Option<RuleSelector>>,
}

// Written out, so that callers do not prove again how each part is dropped.
impl Drop for RuleSet {
    fn drop(self) {
        let RuleSet { alloc: _, rules: _ } = self;
    }
}

impl Model for RuleSet {
    ghost use Rattle.std.specs.Prelude.{IsTrue};
    ghost use Rattle.std.specs.Cmp.Lexicographic.{slice_cmp};
    ghost use Rattle.std.specs.FinMap as map;
    ghost use Rattle.std.specs.Ordering.{nat_cmp};
    ghost use Rattle.policy.specs.UpdateRules.{Rules, rules_code};

    ghost Value = { Rules };

    ghost coded = { rules_code };

    ghost view = { λ s. map.from_sorted s.rules.entries };

    ghost invariant = { λ s. IsTrue (map.is_sorted (slice_cmp nat_cmp) s.rules.entries) };
}

impl RuleSet {
    /// Returns a set without rules. Takes no memory.
    pub fn new(alloc: Global) -> RuleSet
        ensures { result ≡ map.empty }
    {
        RuleSet {
            alloc,
            rules: BTreeMap::new(alloc),
        }
    }

    /// Collects the rules of design documents, each given by its id and its body. Of documents that
    /// have one id the last that declares a rule counts.
    pub fn of(alloc: Global, documents: &[(DocId, Json)]) -> Got<RuleSet>
        ensures { IfOk result (λ rules. rules ≡ rules_of (each (λ d. (d.0, view d.1)) documents.now)) }
    {
        let mut rules = RuleSet::new(alloc);
        for (id, body) in documents {
            rules.put(id, body)?;
        }
        Ok(rules)
    }

    /// Takes in the rule of one more design document, if its body declares one. After a refusal the
    /// rules are as they were.
    pub fn put(&mut self, id: &DocId, body: &Json) -> Got<()>
        ensures ok { OnOk result (self.new ≡ with_rule self.old (id.now, view body.now)) }
        ensures err { OnErr result (self.new ≡ self.old) }
    {
        let Some(value) = body.member("validate_doc_update") else {
            return Ok(());
        };
        let rule = parse_rule(self.alloc, value)?;
        let id = id.copy(self.alloc)?;
        drop(self.rules.insert(id, rule)?);
        Ok(())
    }

    /// Tells whether there are no rules, so that no argument is refused.
    pub fn is_empty(&self) -> bool
        ensures { result ≡ nat_eq (map.len self.now) 0 }
    {
        self.rules.len() == 0
    }

    /// Returns the design document whose rule refuses the argument, the first in the order of ids,
    /// or `None` where all rules hold. Takes no memory.
    pub fn refusal(&self, argument: &Json) -> Option<&DocId>
        ensures { option_copied result ≡ update_refusal self.now (view argument.now) }
    {
        for (id, rule) in self.rules.iter() {
            if !is_met(rule, argument) {
                return Some(id);
            }
        }
        None
    }
}

/// Parses a rule; `None` where the value is none.
fn parse_rule(alloc: Global, value: &Json) -> Got<Option<RuleSelector>>
    ensures { IfOk result (λ rule. rule ≡ rule_selector_in (view value.now)) }
{
    match RuleSelector::parse(alloc, value) {
        Ok(selector) => Ok(Some(selector)),
        Err(SelectorFault::Memory) => Err(NoMemory),
        Err(_) => Ok(None),
    }
}

/// Tells whether a rule holds of an argument.
fn is_met(rule: &Option<RuleSelector>, argument: &Json) -> bool
    ensures { result ≡ holds rule.now (view argument.now) }
{
    match rule {
        Some(selector) => selector.matches(argument),
        None => false,
    }
}
