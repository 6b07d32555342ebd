//! The index of a set of operations.
ghost use Rattle.std.specs.Prelude.{◌≡◌, ◌<◌, ◌≤◌, ◌||◌, [], ◌∷◌, length, map, List, ℕ, OnOk, OnErr, IfOk, Option};
ghost use Rattle.std.specs.Prelude.{None, Some, IfSome};
ghost use Rattle.std.specs.List.{filter};
ghost use Rattle.std.specs.Option.{option_copied, option_map};
ghost use Rattle.std.specs.Map.{keys_of as uids_in};
ghost use Rattle.octets.specs.Texts.{text_cmp};
ghost use Rattle.rejection_note.specs.declared.note.Note.{Note as ANote};
ghost use Rattle.operation.specs.declared.op.Op.TheVariants.{Content as a_content, Correction as a_correction};
ghost use Rattle.operation.specs.Parts.{key_of as key_in};
ghost use Rattle.archive_model.specs.Index.{code_of};
ghost use Rattle.join_laws.specs.GrowSet.{union_of};
ghost use Rattle.study_index.specs.Copies.{is_doubled};
ghost use Rattle.study_index.specs.Keys.{has};
ghost use Rattle.study_index.specs.Live.{pick_at, HasStudy, HasSeries, HasInstance, IsNext, picks_joined};
ghost use Rattle.study_index.specs.Live.{is_of_study, is_of_series, tree_of, places_in_study};
ghost use Rattle.study_index.specs.Index.{IsIndex, index_joined, index_of, nothing, fixes_joined, titles_of, a_naming};
ghost use Rattle.study_index.specs.Index.{naming_cmp, fix_key, fix_at, short_fix_at, latest_at};
ghost use Rattle.study_index.specs.Index.{named, with_content};
ghost use Rattle.study_index.specs.Leads.{lead_cmp, is_between, is_led, is_walked};
ghost use Rattle.study_index.specs.Proved.Indexes.{index_laws, index_summary_laws};

use crate::adding::add_content;
use crate::copies::put_doubled;
use crate::entries::{ContentCopy, Naming};
use crate::fixes::{Fix, FixKey, fix_in, fix_key_of, key_of, later};
use crate::lead_walk::LeadWalk;
use crate::leads::Lead;
use crate::live_picks::LivePicks;
use crate::pick::Pick;
use crate::place::Place;
use crate::short_text::ShortText;
use crate::walk::{count_led, given_by, put_led, stored_by};
use archive_model::{patient, series, study, title_code};
use join_laws::{Greatest, GrowSet, Join, MapOf, Summary};
use octets::Octets;
use operation::{Correction, Target};
use records::{Parts, RecordedContent, RecordedOp};
use rejection_note::{Note, NoteTitle};
use std::alloc::{AllocError, Global};
use std::collections::BTreeSet;
use std::marker::Model;

/// What queries look up in a set of operations.
///
/// It takes operations and whole indexes in, in any order and any number of times. Where memory is
/// refused, it stays as it was.
#[derive(Drop)]
pub struct Index {
    copies: GrowSet<ContentCopy>,
    leads: GrowSet<Lead>,
    titles: GrowSet<Naming>,
    fixes: MapOf<FixKey, Greatest<Fix>>,
    live: LivePicks,
    alloc: Global,
}

impl Model for Index {
    ghost use Rattle.study_index.specs.Index.{IndexValue};

    ghost Value = { IndexValue };

    ghost view = { λ a. record {
      copies = a.copies;
      leads = a.leads;
      titles = a.titles;
      fixes = a.fixes;
      picks = a.live;
    } };
}

// Takes in a UID that a note names, unless it has more than 64 bytes.
fn add_title(titles: &mut GrowSet<Naming>, title: NoteTitle, uid: &Octets) -> Result<(), AllocError>
    ensures { OnOk result (titles.new ≡
        union_of naming_cmp titles.old (named title (uid.now ∷ []))) }
{
    match ShortText::of(uid.as_slice()) {
        Some(uid) => titles.add(&Naming {
            uid,
            title: title_code(title),
        }),
        None => Ok(()),
    }
}

// What a note names, under its title.
fn titles_in(alloc: Global, note: &Note) -> Result<GrowSet<Naming>, AllocError>
    ensures { IfOk result (λ titles. titles ≡ titles_of (Some note.now)) }
{
    let mut titles = GrowSet::empty(alloc);
    for uid in note.covers.as_slice() {
        add_title(&mut titles, note.title, uid)?;
    }
    Ok(titles)
}

// Takes in the corrections and the picks of another index. The live list, which cannot be taken
// back, goes last.
fn join_live(
    fixes: &mut MapOf<FixKey, Greatest<Fix>>,
    live: &mut LivePicks,
    other: &Index,
) -> Result<(), AllocError>
    ensures fixes { OnOk result (fixes.new ≡ fixes_joined fixes.old other.now.fixes) }
    ensures picks { OnOk result (live.new ≡ picks_joined live.old other.now.picks) }
    ensures fixes_kept { OnErr result (fixes.new ≡ fixes.old) }
    ensures picks_kept { OnErr result (live.new ≡ live.old) }
{
    fixes.held();
    let notes = fixes.join_noted(&other.fixes)?;
    if let Err(refused) = live.join_with(&other.live) {
        fixes.take_back(notes);
        return Err(refused);
    }
    Ok(())
}

// Takes in what another index has beside its copies and its leads.
fn join_others(
    titles: &mut GrowSet<Naming>,
    fixes: &mut MapOf<FixKey, Greatest<Fix>>,
    live: &mut LivePicks,
    other: &Index,
) -> Result<(), AllocError>
    ensures titles { OnOk result (titles.new ≡ union_of naming_cmp titles.old other.now.titles) }
    ensures fixes { OnOk result (fixes.new ≡ fixes_joined fixes.old other.now.fixes) }
    ensures picks { OnOk result (live.new ≡ picks_joined live.old other.now.picks) }
    ensures titles_kept { OnErr result (titles.new ≡ titles.old) }
    ensures fixes_kept { OnErr result (fixes.new ≡ fixes.old) }
    ensures picks_kept { OnErr result (live.new ≡ live.old) }
{
    let added = titles.join_noted(&other.titles)?;
    if let Err(refused) = join_live(fixes, live, other) {
        titles.take_out(added);
        return Err(refused);
    }
    Ok(())
}

// Takes in what another index has beside its copies.
fn join_led(
    leads: &mut GrowSet<Lead>,
    titles: &mut GrowSet<Naming>,
    fixes: &mut MapOf<FixKey, Greatest<Fix>>,
    live: &mut LivePicks,
    other: &Index,
) -> Result<(), AllocError>
    ensures leads { OnOk result (leads.new ≡ union_of lead_cmp leads.old other.now.leads) }
    ensures titles { OnOk result (titles.new ≡ union_of naming_cmp titles.old other.now.titles) }
    ensures fixes { OnOk result (fixes.new ≡ fixes_joined fixes.old other.now.fixes) }
    ensures picks { OnOk result (live.new ≡ picks_joined live.old other.now.picks) }
    ensures leads_kept { OnErr result (leads.new ≡ leads.old) }
    ensures titles_kept { OnErr result (titles.new ≡ titles.old) }
    ensures fixes_kept { OnErr result (fixes.new ≡ fixes.old) }
    ensures picks_kept { OnErr result (live.new ≡ live.old) }
{
    let led = leads.join_noted(&other.leads)?;
    if let Err(refused) = join_others(titles, fixes, live, other) {
        leads.take_out(led);
        return Err(refused);
    }
    Ok(())
}

impl Join for Index {
    ghost IsHeld = { IsIndex };

    ghost joined = { index_joined };

    ghost laws = { index_laws };

    fn held(&self) {
        self.copies.held();
        self.leads.held();
        self.titles.held();
        self.fixes.held();
        self.live.held();
    }

    fn join_with(&mut self, other: &Index) -> Result<(), AllocError> {
        let added = self.copies.join_noted(&other.copies)?;
        if let Err(refused) = join_led(
            &mut self.leads,
            &mut self.titles,
            &mut self.fixes,
            &mut self.live,
            other,
        ) {
            self.copies.take_out(added);
            return Err(refused);
        }
        Ok(())
    }
}

impl Summary<RecordedOp> for Index {
    ghost nothing = { nothing };

    ghost of_one = { index_of };

    ghost summary_laws = { index_summary_laws };

    fn empty(alloc: Global) -> Index {
        Index::new(alloc)
    }

    fn add(&mut self, op: &RecordedOp) -> Result<(), AllocError> {
        match op.parts() {
            Parts::Correction(recorded) => self.add_correction(recorded.correction()),
            Parts::Content(content) => match content.note() {
                Some(note) => self.add_note(content, note),
                None => self.add_image(content),
            },
        }
    }
}

impl Index {
    /// The index of nothing. It takes no memory.
    pub fn new(alloc: Global) -> Index
        ensures { result ≡ nothing }
    {
        Index {
            copies: GrowSet::empty(alloc),
            leads: GrowSet::empty(alloc),
            titles: GrowSet::empty(alloc),
            fixes: MapOf::empty(alloc),
            live: LivePicks::empty(alloc),
            alloc,
        }
    }

    // Takes in a correction.
    fn add_correction(&mut self, correction: &Correction) -> Result<(), AllocError>
        ensures ok { OnOk result (self.new ≡
            index_joined self.old (index_of (a_correction correction.now))) }
        ensures refused { OnErr result (self.new ≡ self.old) }
    {
        let key = fix_key_of(correction.target(), correction.tag());
        let given = given_by(self.alloc, correction)?;
        let led = self.leads.join_noted(&given)?;
        if let Err(refused) = self.fixes.add(&(key, fix_in(correction))) {
            self.leads.take_out(led);
            return Err(refused);
        }
        Ok(())
    }

    // Takes in the copy, the leads and the pick of a content. Its leads are taken out again where
    // the others are refused.
    fn add_led(&mut self, content: &RecordedContent) -> Result<(), AllocError>
        ensures ok { OnOk result (self.new ≡ with_content self.old content.now) }
        ensures refused { OnErr result (self.new ≡ self.old) }
    {
        let stored = stored_by(self.alloc, content)?;
        let led = self.leads.join_noted(&stored)?;
        if let Err(refused) = add_content(&mut self.copies, &mut self.live, content) {
            self.leads.take_out(led);
            return Err(refused);
        }
        Ok(())
    }

    // Takes in a content that is a note. Its titles are taken out again where the content is
    // refused.
    fn add_note(&mut self, content: &RecordedContent, note: &Note) -> Result<(), AllocError>
        requires { content.now.note ≡ Some note.now }
        ensures ok { OnOk result (self.new ≡
            index_joined self.old (index_of (a_content content.now))) }
        ensures refused { OnErr result (self.new ≡ self.old) }
    {
        let named = titles_in(self.alloc, note)?;
        let added = self.titles.join_noted(&named)?;
        if let Err(refused) = self.add_led(content) {
            self.titles.take_out(added);
            return Err(refused);
        }
        Ok(())
    }

    // Takes in a content that is no note.
    fn add_image(&mut self, content: &RecordedContent) -> Result<(), AllocError>
        requires { content.now.note ≡ None }
        ensures ok { OnOk result (self.new ≡
            index_joined self.old (index_of (a_content content.now))) }
        ensures refused { OnErr result (self.new ≡ self.old) }
    {
        self.add_led(content)
    }

    /// The digest of the pick of a SOP Instance UID, and behind it the pick's study and series.
    pub fn pick(&self, uid: &ShortText) -> Option<&Pick>
        ensures { option_copied result ≡ pick_at uid.now self.now.picks }
    {
        self.live.pick(uid)
    }

    /// Whether a note of a title names a UID.
    pub fn covered_by(&self, uid: &ShortText, title: NoteTitle) -> bool
        ensures { result ≡ has naming_cmp self.now.titles (a_naming uid.now (code_of title)) }
    {
        let naming = Naming {
            uid: uid.duplicate(),
            title: title_code(title),
        };
        self.titles.get().contains(&naming)
    }

    /// Counter, site and value of the greatest correction of a target and a tag. A target's key has
    /// at most 64 bytes, and one of more has no correction.
    pub fn fix(&self, target: &Target, tag: u32) -> Option<&Fix>
        ensures { length (key_in target.now) ≤ 64 →
            option_copied result ≡ fix_at (fix_key target.now tag) self.now.fixes }
    {
        if key_of(target).len() > 64 {
            return None;
        }
        match self.fixes.value(&fix_key_of(target, tag)) {
            Some(greatest) => greatest.get(),
            None => None,
        }
    }

    // The correction of a kind of target under a key, and a tag.
    fn fix_under(&self, kind: u8, key: &[u8], tag: u32) -> Option<&Fix>
        ensures { option_copied result ≡
            short_fix_at (record { kind = kind; key = key.now; tag = tag }) self.now.fixes }
    {
        if key.len() > 64 {
            return None;
        }
        let key = ShortText::whole(key);
        match self.fixes.value(&FixKey { kind, key, tag }) {
            Some(greatest) => greatest.get(),
            None => None,
        }
    }

    /// Counter, site and value of the correction of an attribute of a content that counts: of those
    /// of its study, its patient and its series the greatest.
    pub fn latest(&self, content: &RecordedContent, tag: u32) -> Option<&Fix>
        ensures { option_copied result ≡ latest_at content.now tag self.now.fixes }
    {
        let of_study = self.fix_under(1, study(content), tag);
        let of_patient = self.fix_under(2, patient(content), tag);
        let of_series = self.fix_under(3, series(content), tag);
        later(of_study, later(of_patient, of_series))
    }

    /// How many contents were taken in.
    pub fn content_count(&self) -> usize
        ensures { result ≡ length self.now.copies }
    {
        self.copies.get().len()
    }

    /// Puts the SOP Instance UIDs of two contents or more into a set, in one pass over the copies.
    /// What was put in before memory was refused stays.
    pub fn put_flagged(&self, uids: &mut BTreeSet<ShortText>) -> Result<(), AllocError>
        ensures { OnOk result ((uid : List ℕ) → has text_cmp uids.new.keys uid
            ≡ (has text_cmp uids.old.keys uid || is_doubled self.now.copies uid)) }
    {
        put_doubled(self.copies.get(), uids)
    }

    /// Puts the studies into a set that the leads of a walk come to. What was put in before memory
    /// was refused stays.
    pub fn put_led(
        &self,
        walk: &LeadWalk,
        studies: &mut BTreeSet<ShortText>,
    ) -> Result<(), AllocError>
        ensures { OnOk result ((study : List ℕ) → has text_cmp studies.new.keys study ≡
            (has text_cmp studies.old.keys study
            || is_led (is_walked walk.now) self.now.leads study)) }
    {
        put_led(self.leads.get(), walk, studies)
    }

    /// How many leads stand from the front of a walk on and before its end, counted up to a limit.
    pub fn count_led(&self, walk: &LeadWalk, most: usize) -> Result<usize, AllocError>
        ensures most { IfOk result (λ count. count ≤ most) }
        ensures counted { IfOk result (λ count. count < most → count ≡
            length (filter (is_between walk.now.front walk.now.end) self.now.leads)) }
    {
        count_led(self.leads.get(), walk, most)
    }

    /// Puts the SOP Instance UIDs of the picks of a study into a set. What was put in before memory
    /// was refused stays.
    pub fn put_study(
        &self,
        study: &ShortText,
        uids: &mut BTreeSet<ShortText>,
    ) -> Result<(), AllocError>
        ensures { OnOk result ((uid : List ℕ) → has text_cmp uids.new.keys uid ≡
            (has text_cmp uids.old.keys uid
            || is_of_study study.now (pick_at uid self.now.picks))) }
    {
        self.live.put_study(study, uids)
    }

    /// Puts the SOP Instance UIDs of the picks of a series of a study into a set. What was put in
    /// before memory was refused stays.
    pub fn put_series(
        &self,
        study: &ShortText,
        series: &ShortText,
        uids: &mut BTreeSet<ShortText>,
    ) -> Result<(), AllocError>
        ensures { OnOk result ((uid : List ℕ) → has text_cmp uids.new.keys uid ≡
            (has text_cmp uids.old.keys uid
            || is_of_series study.now series.now (pick_at uid self.now.picks))) }
    {
        self.live.put_series(study, series, uids)
    }

    /// The places of a study's picks, ascending.
    pub fn places_in(&self, alloc: Global, study: &ShortText) -> Result<Vec<&Place>, AllocError>
        ensures { IfOk result (λ found. map (λ p. p.now) found.items ≡
            places_in_study study.now self.now.picks) }
    {
        self.live.places_in(alloc, study)
    }

    /// The places of all picks, ascending.
    pub fn places(&self, alloc: Global) -> Result<Vec<&Place>, AllocError>
        ensures { IfOk result (λ found. map (λ p. p.now) found.items ≡ tree_of self.now.picks) }
    {
        self.live.places(alloc)
    }

    /// Puts the SOP Instance UIDs of all picks into a set. What was put in before memory was
    /// refused stays.
    pub fn put_all(&self, uids: &mut BTreeSet<ShortText>) -> Result<(), AllocError>
        ensures { OnOk result ((uid : List ℕ) → has text_cmp uids.new.keys uid
            ≡ (has text_cmp uids.old.keys uid || has text_cmp (uids_in self.now.picks) uid)) }
    {
        self.live.put_all(uids)
    }

    /// The least study of all picks past `after` as bytes, or the first where there is none.
    pub fn next_study(&self, after: Option<&ShortText>) -> Result<Option<ShortText>, AllocError>
        ensures { IfOk result (λ next.
            IsNext (HasStudy self.now.picks) (option_copied after.entry) next) }
    {
        self.live.next_study(after)
    }

    /// The least series of a study past `after` as bytes, or the first where there is none.
    pub fn next_series(
        &self,
        study: &ShortText,
        after: Option<&ShortText>,
    ) -> Result<Option<ShortText>, AllocError>
        ensures { IfOk result (λ next.
            IsNext (HasSeries self.now.picks study.now) (option_copied after.entry) next) }
    {
        self.live.next_series(study, after)
    }

    /// The least instance of a series of a study past `after` as bytes, or the first where there is
    /// none.
    pub fn next_instance(
        &self,
        study: &ShortText,
        series: &ShortText,
        after: Option<&ShortText>,
    ) -> Result<Option<ShortText>, AllocError>
        ensures { IfOk result (λ next.
            IsNext (HasInstance self.now.picks study.now series.now)
            (option_copied after.entry) next) }
    {
        self.live.next_instance(study, series, after)
    }
}
