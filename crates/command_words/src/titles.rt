//! The titles by which clients call a site, and who may call each.

ghost use Rattle.std.specs.Prelude.{◌≡◌, IfOk, map};
ghost use Rattle.command_words.specs.Titles.{title_for, titles_for};

use crate::Serving;
use archive_model::View;
use octets::{ListOf, Octets};
use std::alloc::{AllocError, Global};
use ul_state::{Title, Titles};

/// The calling titles that are named.
fn callers_in(alloc: Global, named: &[&str]) -> Result<ListOf<Octets>, AllocError>
    ensures { IfOk result (λ callers. callers ≡ map (λ n. n.now) named.now) }
{
    let mut callers = ListOf::new(alloc);
    for caller in named {
        callers.push(Octets::from_slice(alloc, caller.as_bytes())?)?;
    }
    Ok(callers)
}

/// The title of a view, and who may call it.
fn title(
    alloc: Global,
    serving: &Serving<'_>,
    text: &[u8],
    view: View,
) -> Result<Title<View>, AllocError>
    ensures { IfOk result (λ title. title ≡ title_for serving.now text.now view) }
{
    let callers = callers_in(alloc, serving.callers_of(view))?;
    Ok(Title {
        title: Octets::from_slice(alloc, text)?,
        value: view,
        callers,
    })
}

impl<'a> Serving<'a> {
    /// The titles by which a site is called (PS3.8, section 9.3.2, the called AE title): `ARCHIVE`,
    /// `QUALITY` and `AUDIT`, each for its view, and who may call it.
    pub fn titles(&self, alloc: Global) -> Result<Titles<View>, AllocError>
        ensures { IfOk result (λ titles. titles.list ≡ titles_for self.now) }
    {
        let mut list = ListOf::new(alloc);
        list.push(title(alloc, self, b"ARCHIVE", View::Archive)?)?;
        list.push(title(alloc, self, b"QUALITY", View::Quality)?)?;
        list.push(title(alloc, self, b"AUDIT", View::Audit)?)?;
        Ok(Titles { list })
    }
}
