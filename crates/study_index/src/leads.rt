//! From a value to a study: the leads of contents and of corrections, in one order.
ghost use Rattle.std.specs.Prelude.{◌≡◌, ◌<◌, ◌≤◌, ◌++◌, ◌∷◌, [], take, map, length, refl, Some, IfOk};
ghost use Rattle.std.specs.Ordering.{eq_by_cmp, nat_cmp, ordering_then};
ghost use Rattle.std.specs.Cmp.{partial_equiv_from_equiv, eq_by_cmp_equiv, partial_order_from_total};
ghost use Rattle.std.specs.Char.{to_ascii_uppercase};
ghost use Rattle.octets.specs.Texts.{text_cmp};
ghost use Rattle.study_index.specs.Leads.{a_lead, lead_cmp, as_led, led_byte, stored_lead, may_have, IsBehind};
ghost use Rattle.study_index.specs.Proved.Leads.{lead_total, lead_exact};

use crate::marks::value_marks;
use crate::needle::{Needle, byte_as_led};
use crate::short_text::{ShortText, front};
use archive_model::study;
use dictionary::PATIENT_NAME;
use join_laws::{Copies, Exact};
use records::RecordedContent;
use std::alloc::{AllocError, Global};
use std::cmp::Ordering;
use std::marker::Model;
use std::sync::Arc;

/// A value as it is led from, and the kind and the key of what it leads to.
#[derive(Drop)]
pub struct Named {
    value: ShortText,
    kind: u8,
    key: ShortText,
}

impl Model for Named {
    ghost use Rattle.study_index.specs.Leads.{Named};

    ghost Value = { Named };

    ghost view = { λ n. record { value = n.value; kind = n.kind; key = n.key } };
}

/// Where the value and the key of a lead stand.
#[derive(Drop)]
pub enum Source {
    /// In a content, which is shared: its own value leads to its study.
    Stored(RecordedContent),
    /// In a text, for a correction, or for an end of a walk.
    Given(Arc<Named, Global>),
}

/// What leads from a value of an attribute to a study, or to the studies of a stored Patient ID.
///
/// One of a content shares the content, and keeps no text of its own. The marks of its value tell
/// of most needles that they do not stand in it.
pub struct Lead {
    tag: u32,
    marks: u32,
    source: Source,
    alloc: Global,
}

impl Model for Lead {
    ghost use Rattle.study_index.specs.Leads.{Lead};

    ghost Value = { Lead };

    ghost use Rattle.study_index.specs.LeadView.{lead_view};

    ghost view = { λ l. lead_view l.tag l.source };

    ghost use Rattle.std.specs.Prelude.{◌≡◌};
    ghost use Rattle.study_index.specs.Marks.{value_marks};

    ghost invariant = { λ l. l.marks ≡ value_marks (lead_view l.tag l.source).value };
}

// It is written out, so that a caller does not prove again how each part is dropped.
impl Drop for Lead {
    fn drop(self) {
        let Lead {
            tag: _,
            marks: _,
            source: _,
            alloc: _,
        } = self;
    }
}

fn fold(text: &mut [u8])
    ensures { text.new ≡ map to_ascii_uppercase text.old }
{
    for i in 0..text.len() {
        let byte = text[i];
        text[i] = byte.to_ascii_uppercase();
    }
}

// A text of at most 64 bytes in capitals.
fn folded(text: &ShortText) -> ShortText
    ensures { result ≡ map to_ascii_uppercase text.now }
{
    let mut bytes = [0; 64];
    let text = text.as_slice();
    bytes[..text.len()].copy_from_slice(text);
    fold(&mut bytes[..text.len()]);
    ShortText::whole(&bytes[..text.len()])
}

/// A value as it is led from.
pub fn led(tag: u32, value: &[u8]) -> ShortText
    ensures { result ≡ as_led tag value.now }
{
    let text = ShortText::cut(value);
    if tag == PATIENT_NAME {
        folded(&text)
    } else {
        text
    }
}

// The order of two texts, each byte of them as it is led from.
fn led_order(folds: bool, text: &[u8], other_folds: bool, other: &[u8]) -> Ordering
    ensures { result ≡ text_cmp (map (led_byte folds) text.now)
        (map (led_byte other_folds) other.now) }
{
    let [byte, text @ ..] = text else {
        return match other {
            [] => Ordering::Equal,
            [_, ..] => Ordering::Less,
        };
    };
    let [other_byte, other @ ..] = other else {
        return Ordering::Greater;
    };
    match byte_as_led(folds, *byte).cmp(&byte_as_led(other_folds, *other_byte)) {
        Ordering::Less => Ordering::Less,
        Ordering::Equal => led_order(folds, text, other_folds, other),
        Ordering::Greater => Ordering::Greater,
    }
}

// A text with a byte behind it.
fn ended(text: &[u8], byte: u8) -> ShortText
    requires { length text.now < 64 }
    ensures { result ≡ text.now ++ byte ∷ [] }
{
    let mut bytes = [0; 64];
    bytes[..text.len()].copy_from_slice(text);
    bytes[text.len()] = byte;
    ShortText::whole(&bytes[..text.len() + 1])
}

impl Lead {
    /// What leads from a content's own value to its study.
    pub fn stored(alloc: Global, tag: u32, content: &RecordedContent) -> Result<Lead, AllocError>
        ensures { IfOk result (λ lead. lead ≡ stored_lead content.now tag) }
    {
        let marks = value_marks(&led(tag, content.own_value(tag)));
        Ok(Lead {
            tag,
            marks,
            source: Source::Stored(content.copy()?),
            alloc,
        })
    }

    /// What leads from a value, which is as it is led from, to what has a key. Kind 1 is a study, 2
    /// the studies of a stored Patient ID; 0 and 3 are for the ends of a walk.
    pub fn given(
        alloc: Global,
        tag: u32,
        value: ShortText,
        kind: u8,
        key: ShortText,
    ) -> Result<Lead, AllocError>
        ensures { IfOk result (λ lead. lead ≡ a_lead tag value kind key) }
    {
        let marks = value_marks(&value);
        let named = Arc::new(alloc, Named { value, kind, key })?;
        Ok(Lead {
            tag,
            marks,
            source: Source::Given(named),
            alloc,
        })
    }

    /// What stands behind all that begins with a text, which is as it is led from.
    pub fn behind(alloc: Global, tag: u32, text: &ShortText) -> Result<Lead, AllocError>
        requires { tag < 4294967295 }
        ensures { IfOk result (λ end. IsBehind tag text.now end) }
    {
        let bytes = text.as_slice();
        let length = bytes.len();
        if length == 0 || bytes[length - 1] == 255 {
            let end = Lead::given(alloc, tag + 1, ShortText::empty(), 0, ShortText::empty())?;
            return Ok(end);
        }
        let raised = ended(&bytes[..length - 1], bytes[length - 1] + 1);
        let end = Lead::given(alloc, tag, raised, 0, ShortText::empty())?;
        Ok(end)
    }

    pub(crate) fn alloc(&self) -> Global {
        self.alloc
    }

    // The bytes of the value, at most 64, and whether they are folded where they are read. So no
    // copy is made of it.
    fn read(&self) -> (bool, &[u8])
        ensures { map (led_byte result.0) result.1.now ≡ self.now.value }
    {
        match &self.source {
            Source::Stored(content) => {
                let value = front(content.own_value(self.tag));
                (self.tag == PATIENT_NAME, value)
            }
            Source::Given(named) => (false, named.value.as_slice()),
        }
    }

    // Whether a needle may stand in the value.
    fn reads(&self, needle: &Needle) -> bool
        ensures { result ≡ may_have needle.now self.now.value }
    {
        let (folds, text) = self.read();
        needle.may_stand_in(folds, text)
    }

    /// Whether a needle may stand in the value. One without its marks is not read.
    pub fn may_have(&self, needle: &Needle) -> bool
        ensures { result ≡ may_have needle.now self.now.value }
    {
        needle.is_marked(self.marks) && self.reads(needle)
    }

    /// 1 where it leads to a study, 2 where it leads to the studies of a stored Patient ID.
    pub fn kind(&self) -> u8
        ensures { result ≡ self.now.kind }
    {
        match &self.source {
            Source::Stored(_) => 1,
            Source::Given(named) => named.kind,
        }
    }

    /// The study, or the Patient ID, of which an index knows 64 bytes.
    pub fn key(&self) -> ShortText
        ensures { result ≡ self.now.key }
    {
        match &self.source {
            Source::Stored(content) => ShortText::cut(study(content)),
            Source::Given(named) => named.key.duplicate(),
        }
    }

    // The order of leads of one tag and one value.
    fn by_key(&self, other: &Lead) -> Ordering
        ensures { result ≡ ordering_then (nat_cmp self.now.kind other.now.kind)
            (text_cmp self.now.key other.now.key) }
    {
        match self.kind().cmp(&other.kind()) {
            Ordering::Less => Ordering::Less,
            Ordering::Equal => self.key().cmp(&other.key()),
            Ordering::Greater => Ordering::Greater,
        }
    }

    // The order of leads of one tag.
    fn by_value(&self, other: &Lead) -> Ordering
        ensures { result ≡ ordering_then (text_cmp self.now.value other.now.value)
            (ordering_then (nat_cmp self.now.kind other.now.kind)
            (text_cmp self.now.key other.now.key)) }
    {
        let (folds, text) = self.read();
        let (other_folds, other_text) = other.read();
        match led_order(folds, text, other_folds, other_text) {
            Ordering::Less => Ordering::Less,
            Ordering::Equal => self.by_key(other),
            Ordering::Greater => Ordering::Greater,
        }
    }
}

impl PartialEq for Lead {
    ghost eq = { eq_by_cmp lead_cmp };

    ghost laws = { partial_equiv_from_equiv (eq_by_cmp_equiv lead_total) };

    fn eq(&self, other: &Lead) -> bool {
        self.cmp(other).is_eq()
    }
}

impl Eq for Lead {
    ghost laws = { eq_by_cmp_equiv lead_total };
}

impl PartialOrd for Lead {
    ghost partial_cmp = { λ x y. Some (lead_cmp x y) };

    ghost laws = { partial_order_from_total lead_total };

    fn partial_cmp(&self, other: &Lead) -> Option<Ordering> {
        Some(self.cmp(other))
    }
}

impl Ord for Lead {
    ghost cmp = { lead_cmp };

    ghost total = { lead_total };

    ghost matches_partial_cmp = { λ x y. refl };

    ghost matches_eq = { λ x y. refl };

    fn cmp(&self, other: &Lead) -> Ordering {
        match self.tag.cmp(&other.tag) {
            Ordering::Less => Ordering::Less,
            Ordering::Equal => self.by_value(other),
            Ordering::Greater => Ordering::Greater,
        }
    }
}

impl Copies for Lead {
    fn copy(&self) -> Result<Lead, AllocError> {
        let source = match &self.source {
            Source::Stored(content) => Source::Stored(content.copy()?),
            Source::Given(named) => Source::Given(Arc::try_clone(named)?),
        };
        Ok(Lead {
            tag: self.tag,
            marks: self.marks,
            source,
            alloc: self.alloc,
        })
    }
}

impl Exact for Lead {
    ghost exact = { lead_exact };
}
