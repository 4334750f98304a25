//! The terms of one request, and what its update rules are asked of.

ghost use Rattle.std.specs.Prelude.{◌≡◌, true, IfErr, IfOk, None, is_some, nat_eq, option_copied, option_map};
ghost use Rattle.std.specs.FinMap as map;
ghost use Rattle.couch_json.specs.View.{view as json_view};
ghost use Rattle.policy.specs.Argument.{argument_with, circumstances};
ghost use Rattle.policy.specs.UpdateRules.{update_verdict};
ghost use Rattle.store.specs.Calls.{OnlyReads};
ghost use Rattle.store.specs.Contents.{IfThere};
ghost use Rattle.policy.specs.declared.rule.Rule.TheVariants.{Update};
ghost use Rattle.write.specs.Admission.{design_refusal};
ghost use Rattle.write.specs.Refusing.{IsDecided, IsOfStoreOrMemory, Refuses};
ghost use Rattle.write.specs.RequestRead.{AreCircumstancesOf};
ghost use Rattle.write.specs.Terms.{terms_in};
ghost use Rattle.write.specs.TermsRead.{terms_of};

use crate::denial::find_design_rule;
use crate::fault::WriteFault;
use crate::terms::{Terms, read_terms};
use auth::Caller;
use couch_json::{Got, Json};
use policy::{Circumstances, Rule};
use std::alloc::Global;
use std::marker::Model;
use store::{DbName, Store};
use tree::DocId;

/// The terms of one request, by which all its documents are judged.
///
/// The circumstances in which its update rules are asked are made for the first document that they are
/// asked of, and serve all those behind it. So the security object is copied once, and not where no rule
/// is asked.
pub(crate) struct RequestTerms<'a> {
    alloc: Global,
    terms: Terms<'a>,
    /// The circumstances, once a rule was asked.
    circumstances: Option<Circumstances>,
}

// Written out, so that callers do not prove again how each part is dropped.
impl Drop for RequestTerms<'_> {
    fn drop(self) {
        let RequestTerms {
            alloc: _,
            terms: _,
            circumstances: _,
        } = self;
    }
}

impl<'a> Model for RequestTerms<'a> {
    ghost use Rattle.write.specs.RequestRead.{AreCircumstancesOf, terms_code};
    ghost use Rattle.write.specs.Terms.{Terms as TermsValue};
    ghost use Rattle.write.specs.TermsRead.{terms_of};

    ghost Value = { TermsValue };

    ghost coded = { terms_code };

    ghost view = { λ r. terms_of r.terms };

    ghost invariant = { λ r. AreCircumstancesOf (terms_of r.terms) r.circumstances };
}

impl<'a> RequestTerms<'a> {
    /// Reads the terms on which a caller writes. Nothing changes.
    pub(crate) fn read<S: Store>(
        alloc: Global,
        store: &mut S,
        db: &'a DbName,
        caller: &'a Caller,
    ) -> Result<RequestTerms<'a>, WriteFault>
        ensures there { S.is_honest store.new → IsDecided result → is_some (map.get (S.contents store.old) db.now) ≡ true }
        ensures terms { S.is_honest store.new → IfOk result (λ t. IfThere (map.get (S.contents store.old) db.now) (λ d. t ≡ terms_in caller.now db.now d)) }
        ensures only { IfErr result IsOfStoreOrMemory }
        ensures passed { IfErr result (Refuses S.Store store.old store.new (map.get (S.contents store.old) db.now ≡ None) ⊥) }
        ensures reads { OnlyReads S.Store store.old store.new }
    {
        let terms = read_terms(alloc, store, db, caller)?;
        Ok(RequestTerms {
            alloc,
            terms,
            circumstances: None,
        })
    }

    /// Finds the rule by which the caller may not write this document, whatever it says.
    pub(crate) fn find_design_refusal(&self, id: &DocId) -> Option<Rule>
        ensures { result ≡ design_refusal self.now id.now }
    {
        find_design_rule(self.terms.caller, &self.terms.security, id)
    }

    /// Tells whether there are no update rules.
    pub(crate) fn has_no_rules(&self) -> bool
        ensures { result ≡ nat_eq (map.len self.now.rules) 0 }
    {
        self.terms.rules.is_empty()
    }

    /// Finds the first update rule that does not hold of these documents, each as it is shown.
    pub(crate) fn find_broken_rule(&mut self, new: Json, old: Option<Json>) -> Got<Option<Rule>>
        ensures answer { IfOk result (λ rule. rule ≡ update_verdict self.old.rules
            (argument_with (json_view new) (option_map json_view old) self.old.caller self.old.name self.old.security)) }
        ensures kept { self.new ≡ self.old }
    {
        let made = self.circumstances.take();
        let mut circumstances = make_circumstances(self.alloc, &self.terms, made)?;
        let refusal = circumstances.refusal(&self.terms.rules, new, old);
        self.circumstances = Some(circumstances);
        name_rule(self.alloc, refusal?)
    }
}

/// Makes the circumstances in which update rules are asked, where they are not made yet.
fn make_circumstances(
    alloc: Global,
    terms: &Terms,
    made: Option<Circumstances>,
) -> Got<Circumstances>
    requires { AreCircumstancesOf (terms_of terms.now) made }
    ensures { IfOk result (λ beside. beside ≡ circumstances terms.now.caller.now terms.now.name.now terms.now.security) }
{
    match made {
        Some(circumstances) => Ok(circumstances),
        None => Circumstances::new(alloc, terms.caller, terms.name.as_str(), &terms.security),
    }
}

/// Names the update rule of a design document.
fn name_rule(alloc: Global, id: Option<&DocId>) -> Got<Option<Rule>>
    ensures { IfOk result (λ rule. rule ≡ option_map (λ id. Update id) (option_copied id.entry)) }
{
    match id {
        Some(id) => Ok(Some(Rule::Update(id.copy(alloc)?))),
        None => Ok(None),
    }
}
