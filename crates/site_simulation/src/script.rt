//! The sites of a script by their names, and what its lines do.

ghost use Rattle.std.specs.Prelude.{◌≡◌, ◌++◌, ◌∷◌, [], ◌≤◌, IfOk, OnOk, OnErr, Result, length};
ghost use Rattle.std.specs.Prelude.{map, codes};
ghost use Rattle.std.specs.Option.{option_map, option_copied};
ghost use Rattle.octets.specs.Gives.{Gives};
ghost use Rattle.data_set.specs.declared.syntax.Syntax.TheVariants.{Implicit};
ghost use Rattle.data_set.specs.Written.{IsSet};
ghost use Rattle.operation.specs.declared.op.Op.TheVariants.{Content as a_content};
ghost use Rattle.operation.specs.declared.fault.OpFault.{OpFault};
ghost use Rattle.operation.specs.Fault.{is_memory as is_memory_fault};
ghost use Rattle.operation.specs.Parts.{ContentParts};
ghost use Rattle.archive_model.specs.declared.query.Query.{Query};
ghost use Rattle.archive_model.specs.declared.fault.QueryFault.{QueryFault};
ghost use Rattle.archive_model.specs.Fault.{is_memory as is_memory_query};
ghost use Rattle.archive_model.specs.Query.{query_of};
ghost use Rattle.archive_model.specs.declared.selection.Selection.{Selection};
ghost use Rattle.archive_model.specs.Selection.{selection_of};
ghost use Rattle.site_script.specs.Commands.{command_of as command_of_line};
ghost use Rattle.site_script.specs.Fitting.{IsShort, MakesSets};
ghost use Rattle.site_simulation.specs.Output.{NOTHING};
ghost use Rattle.site_world.specs.Same.{same_site};
ghost use Rattle.site_script.specs.Sets.{image_made, note_made, image_elements, note_elements};
ghost use Rattle.site_script.specs.Sets.{identifier};
ghost use Rattle.site_simulation.specs.Script.{number_named, site_move, take_move, look_move};
ghost use Rattle.site_simulation.specs.Script.{get_move, same_move, flagged_move, at_site, said};
ghost use Rattle.site_simulation.specs.Script.{move_of as move_of_command};
ghost use Rattle.site_simulation.specs.Script.{moved, printed, after};
ghost use Rattle.site_simulation.specs.State.{State};
ghost use Rattle.site_world.specs.Steps.{site_at, is_refused_memory};
ghost use Rattle.site_simulation.specs.Texts.{BAD, fault_line, flagged_lines, same_line};

use crate::print::{put_fault, put_flagged, put_line, put_same, put_seen, put_site};
use archive_model::View;
use archive_query::{Query, QueryFault, Selection};
use octets::Octets;
use operation::{Content, Op, OpFault};
use site_script::{
    Command, CorrectLine, FindLine, GetLine, ImageLine, NoteLine, command_of, image_content,
    note_content, query_in, script_accepts, selection_in,
};
use site_state::WholeSite;
use site_world::{MOST_SITES, Seen, Step, World, WorldFault};
use std::alloc::{AllocError, Global};
use std::marker::Model;

/// What a line does.
#[derive(Drop)]
pub enum Move {
    /// It prints a text, and nothing else.
    Says(Octets),
    /// It gives the next site a name.
    Names(Octets),
    /// It does a step, and prints what is seen.
    Does(Step),
}

/// What a script has made so far.
pub struct Script {
    names: Vec<Octets>,
    world: World,
    alloc: Global,
}

// It is written out, so that a caller does not prove again how each part is dropped.
impl Drop for Script {
    fn drop(self) {
        let Script {
            names: _,
            world: _,
            alloc: _,
        } = self;
    }
}

impl Model for Script {
    ghost use Rattle.site_simulation.specs.State.{State, state_code};

    ghost Value = { State };

    ghost coded = { state_code };

    ghost view = { λ s. record { names = s.names.items; world = s.world } };
}

/// The number of the site that has a name.
fn number_of(names: &[Octets], name: &Octets) -> Option<usize>
    ensures { result ≡ number_named name.now names.now }
{
    for i in 0..names.len() {
        if names[i].as_slice() == name.as_slice() {
            return Some(i + 1);
        }
    }
    None
}

fn says_bad(alloc: Global) -> Result<Move, AllocError>
    ensures { IfOk result (λ said. said ≡ Move.Says BAD) }
{
    let mut text = Vec::new(alloc);
    put_line(&mut text, b"bad")?;
    Ok(Move::Says(Octets::of(text)))
}

fn says_fault(alloc: Global, whose: &[u8], number: u8) -> Result<Move, AllocError>
    ensures { IfOk result (λ said. said ≡ Move.Says (fault_line whose.now number)) }
{
    let mut text = Vec::new(alloc);
    put_fault(alloc, &mut text, whose, number)?;
    Ok(Move::Says(Octets::of(text)))
}

/// A site that the script does not know.
fn says_no_site(alloc: Global) -> Result<Move, AllocError>
    ensures { IfOk result (λ said. said ≡ Move.Says (fault_line (codes "world") 1)) }
{
    says_fault(alloc, b"world", 1)
}

/// A step that takes a content, or the refusal of the content.
fn take_of(alloc: Global, number: usize, made: Result<Content, OpFault>) -> Result<Move, AllocError>
    ensures { (r : Result ContentParts OpFault) → Gives is_memory_fault (λ c. c) made r →
        IfOk result (λ did. did ≡ take_move number r) }
{
    match made {
        Ok(content) => Ok(Move::Does(Step::Take(number, Op::Content(content)))),
        Err(OpFault::Memory) => Err(AllocError),
        Err(fault) => says_fault(alloc, b"op", fault.number()),
    }
}

/// A step that asks, or the refusal of the query.
fn look_of(
    alloc: Global,
    number: usize,
    view: View,
    query: Result<Query, QueryFault>,
) -> Result<Move, AllocError>
    ensures { (r : Result Query QueryFault) → Gives is_memory_query (λ q. q) query r →
        IfOk result (λ did. did ≡ look_move number view r) }
{
    match query {
        Ok(query) => Ok(Move::Does(Step::Look(number, view, query))),
        Err(QueryFault::Memory) => Err(AllocError),
        Err(fault) => says_fault(alloc, b"query", fault.number()),
    }
}

/// A step that gets, or the refusal of the selection.
fn get_of(
    alloc: Global,
    number: usize,
    view: View,
    selection: Result<Selection, QueryFault>,
) -> Result<Move, AllocError>
    ensures { (r : Result Selection QueryFault) → Gives is_memory_query (λ s. s) selection r →
        IfOk result (λ did. did ≡ get_move number view r) }
{
    match selection {
        Ok(selection) => {
            let accepts = script_accepts(alloc)?;
            Ok(Move::Does(Step::Get(number, view, selection, accepts)))
        }
        Err(QueryFault::Memory) => Err(AllocError),
        Err(fault) => says_fault(alloc, b"query", fault.number()),
    }
}

/// Whether two sites hold the same.
fn is_same(a: &WholeSite, b: &WholeSite) -> bool
    ensures { result ≡ same_site a.now b.now }
{
    a.same(b)
}

fn same_of(alloc: Global, a: Option<&WholeSite>, b: Option<&WholeSite>) -> Result<Move, AllocError>
    ensures { IfOk result (λ said.
        said ≡ same_move (option_copied a.entry) (option_copied b.entry)) }
{
    match (a, b) {
        (Some(a), Some(b)) => {
            let mut text = Vec::new(alloc);
            put_same(&mut text, is_same(a, b))?;
            Ok(Move::Says(Octets::of(text)))
        }
        _ => says_no_site(alloc),
    }
}

fn flagged_of(alloc: Global, site: Option<&WholeSite>) -> Result<Move, AllocError>
    ensures { IfOk result (λ said. said ≡ flagged_move (option_copied site.entry)) }
{
    match site {
        None => says_no_site(alloc),
        Some(site) => {
            let uids = site.flagged(alloc)?;
            let mut text = Vec::new(alloc);
            put_flagged(alloc, &mut text, uids.as_slice())?;
            Ok(Move::Says(Octets::of(text)))
        }
    }
}

impl Script {
    /// A script that has made nothing yet.
    pub fn new(alloc: Global) -> Result<Script, WorldFault>
        ensures { IfOk result (λ script. script ≡ NOTHING) }
    {
        Ok(Script {
            names: Vec::new(alloc),
            world: World::new(alloc, MOST_SITES)?,
            alloc,
        })
    }

    fn site(&self, name: Octets) -> Result<Move, AllocError>
        ensures { IfOk result (λ did. did ≡ site_move self.now name) }
    {
        if number_of(self.names.as_slice(), &name).is_some() {
            return says_bad(self.alloc);
        }
        if self.names.len() >= MOST_SITES {
            return says_no_site(self.alloc);
        }
        Ok(Move::Names(name))
    }

    fn image(&self, line: &ImageLine) -> Result<Move, AllocError>
        requires { IsSet Implicit (image_elements line.now) }
        ensures { IfOk result (λ did. did ≡ at_site (number_named line.now.site self.now.names)
            (λ n. take_move n (image_made line.now))) }
    {
        match number_of(self.names.as_slice(), &line.site) {
            None => says_no_site(self.alloc),
            Some(number) => take_of(self.alloc, number, image_content(self.alloc, line)),
        }
    }

    fn note(&self, line: &NoteLine) -> Result<Move, AllocError>
        requires { IsSet Implicit (note_elements line.now) }
        ensures { IfOk result (λ did. did ≡ at_site (number_named line.now.site self.now.names)
            (λ n. take_move n (note_made line.now))) }
    {
        match number_of(self.names.as_slice(), &line.site) {
            None => says_no_site(self.alloc),
            Some(number) => take_of(self.alloc, number, note_content(self.alloc, line)),
        }
    }

    fn correct(&self, line: CorrectLine) -> Result<Move, AllocError>
        ensures { IfOk result (λ did. did ≡ at_site (number_named line.site self.now.names)
            (λ n. Move.Does (Step.Correct n line.target line.tag line.value))) }
    {
        match number_of(self.names.as_slice(), &line.site) {
            None => says_no_site(self.alloc),
            Some(number) => Ok(Move::Does(Step::Correct(
                number,
                line.target,
                line.tag,
                line.value,
            ))),
        }
    }

    fn find(&self, line: &FindLine) -> Result<Move, AllocError>
        requires { IsSet Implicit (identifier line.now.keys) }
        ensures { IfOk result (λ did. did ≡ at_site (number_named line.now.site self.now.names)
            (λ n. look_move n line.now.view (query_of (identifier line.now.keys)))) }
    {
        match number_of(self.names.as_slice(), &line.site) {
            None => says_no_site(self.alloc),
            Some(number) => look_of(self.alloc, number, line.view, query_in(self.alloc, line)),
        }
    }

    fn get(&self, line: &GetLine) -> Result<Move, AllocError>
        requires { IsSet Implicit (identifier line.now.keys) }
        ensures { IfOk result (λ did. did ≡ at_site (number_named line.now.site self.now.names)
            (λ n. get_move n line.now.view (selection_of (identifier line.now.keys)))) }
    {
        match number_of(self.names.as_slice(), &line.site) {
            None => says_no_site(self.alloc),
            Some(number) => get_of(
                self.alloc,
                number,
                line.view,
                selection_in(self.alloc, line),
            ),
        }
    }

    fn offer(&self, a: &Octets, b: &Octets) -> Result<Move, AllocError>
        ensures { IfOk result (λ did. did ≡ move_of_command self.now (Command.Offer a.now b.now)) }
    {
        let Some(from) = number_of(self.names.as_slice(), a) else {
            return says_no_site(self.alloc);
        };
        let Some(to) = number_of(self.names.as_slice(), b) else {
            return says_no_site(self.alloc);
        };
        Ok(Move::Does(Step::Offer(from, to)))
    }

    fn buckets(&self, a: &Octets, b: &Octets) -> Result<Move, AllocError>
        ensures { IfOk result (λ did.
            did ≡ move_of_command self.now (Command.Buckets a.now b.now)) }
    {
        let Some(from) = number_of(self.names.as_slice(), a) else {
            return says_no_site(self.alloc);
        };
        let Some(to) = number_of(self.names.as_slice(), b) else {
            return says_no_site(self.alloc);
        };
        Ok(Move::Does(Step::Buckets(from, to)))
    }

    fn old(&self, name: &Octets) -> Result<Move, AllocError>
        ensures { IfOk result (λ did. did ≡ move_of_command self.now (Command.Old name.now)) }
    {
        match number_of(self.names.as_slice(), name) {
            None => says_no_site(self.alloc),
            Some(number) => Ok(Move::Does(Step::Old(number))),
        }
    }

    fn same(&self, a: &Octets, b: &Octets) -> Result<Move, AllocError>
        ensures { IfOk result (λ did. did ≡ move_of_command self.now (Command.Same a.now b.now)) }
    {
        let Some(m) = number_of(self.names.as_slice(), a) else {
            return says_no_site(self.alloc);
        };
        let Some(n) = number_of(self.names.as_slice(), b) else {
            return says_no_site(self.alloc);
        };
        same_of(self.alloc, self.world.site(m), self.world.site(n))
    }

    fn flagged(&self, name: &Octets) -> Result<Move, AllocError>
        ensures { IfOk result (λ did. did ≡ move_of_command self.now (Command.Flagged name.now)) }
    {
        match number_of(self.names.as_slice(), name) {
            None => says_no_site(self.alloc),
            Some(number) => flagged_of(self.alloc, self.world.site(number)),
        }
    }

    /// What a line does, by what it asks for.
    fn move_of(&self, command: Command) -> Result<Move, AllocError>
        requires { MakesSets command }
        ensures { IfOk result (λ did. did ≡ move_of_command self.now command) }
    {
        match command {
            Command::Skip => Ok(Move::Says(Octets::of(Vec::new(self.alloc)))),
            Command::Bad => says_bad(self.alloc),
            Command::Site(name) => self.site(name),
            Command::Image(line) => self.image(&line),
            Command::Note(line) => self.note(&line),
            Command::Correct(line) => self.correct(line),
            Command::Find(line) => self.find(&line),
            Command::Get(line) => self.get(&line),
            Command::Offer(a, b) => self.offer(&a, &b),
            Command::Buckets(a, b) => self.buckets(&a, &b),
            Command::Deliver(number) => Ok(Move::Does(Step::Deliver(number))),
            Command::Old(name) => self.old(&name),
            Command::Same(a, b) => self.same(&a, &b),
            Command::Flagged(name) => self.flagged(&name),
        }
    }

    /// Does a step, and prints what is seen.
    fn step(&mut self, step: Step, out: &mut Vec<u8>) -> Result<(), AllocError>
        ensures said { OnOk result
            (out.new.items ≡ out.old.items ++ said self.old (Move.Does step)) }
        ensures moved { OnOk result (self.new ≡ moved self.old (Move.Does step)) }
    {
        let seen = self.world.step(&step);
        if is_memory(&seen) {
            return Err(AllocError);
        }
        put_seen(self.alloc, out, &seen)
    }

    /// Does what a line does.
    fn act(&mut self, did: Move, out: &mut Vec<u8>) -> Result<(), AllocError>
        ensures said { OnOk result (out.new.items ≡ out.old.items ++ said self.old did) }
        ensures moved { OnOk result (self.new ≡ moved self.old did) }
    {
        match did {
            Move::Says(text) => out.extend_from_slice(text.as_slice()),
            Move::Names(name) => {
                put_site(self.alloc, out, name.as_slice(), self.names.len() + 1)?;
                self.names.push(name)?;
                Ok(())
            }
            Move::Does(step) => self.step(step, out),
        }
    }

    /// Does what a line asks for, and adds what it prints to `out`.
    #[tactic(auto, unfolding(crate::specs::Script::printed, crate::specs::Script::after))]
    pub fn line(&mut self, line: &[u8], out: &mut Vec<u8>) -> Result<(), AllocError>
        requires { IsShort line.now }
        ensures printed { OnOk result (out.new.items
            ≡ out.old.items ++ printed self.old (command_of_line line.now)) }
        ensures after { OnOk result (self.new ≡ after self.old (command_of_line line.now)) }
    {
        let command = command_of(self.alloc, line)?;
        let did = self.move_of(command)?;
        self.act(did, out)
    }
}

/// Whether a step was refused for want of memory.
fn is_memory(seen: &Result<Seen, WorldFault>) -> bool
    ensures { result ≡ is_refused_memory seen.now }
{
    match seen {
        Ok(_) => false,
        Err(fault) => *fault == WorldFault::Memory,
    }
}
