//! A large plan, made from a number, is asked, and the document of its answer is checked.
ghost use Rattle.std.specs.Prelude.{◌≡◌, ◌++◌, ℕ, List, Option, IfOk};
ghost use Rattle.uhura_text.specs.Lines.{lines};
ghost use Rattle.uhura_veto.specs.State.{State as Asked};
ghost use Rattle.uhura_gen.specs.Generator.{IsSeed};
ghost use Rattle.uhura_cert.specs.declared.document.Proposal.{Proposal as Stated};
ghost use Rattle.uhura_cert.specs.Text.{IsRead};
ghost use Rattle.uhura_check.specs.Confirmed.{Confirmed};
ghost use Rattle.uhura_proof.specs.Proof.{IsProof};
ghost use Rattle.uhura_search.specs.Searcher.{StandsFor};
ghost use Rattle.uhura_session.specs.Answers.{IsProved};
ghost use Rattle.uhura.specs.Measure.{measured_state, IsMeasured, measure_text, cost_line};
ghost use Rattle.uhura.specs.Measure.{TellsOf, IsTold, Measures};
ghost use Rattle.uhura.specs.Run.{MeetsWriteFault};

use crate::Status;
use std::alloc::{AllocError, Global};
use uhura_cert::{Document, DocumentRefusal, read_document};
use uhura_check::{CheckRefusal, check};
use uhura_command::State;
use uhura_gen::plan_of;
use uhura_io::{Failed, Sink, write_all};
use uhura_relax::RelaxScratch;
use uhura_search::Searcher;
use uhura_session::prove;
use uhura_text::put_number;
use uhura_veto::Vetoes;

/// How many controllable events a measured plan has.
const EVENTS: u32 = 64;

/// Asks the plan of this number as `prove` does, reads the document and checks it, and writes how many leaves it has,
/// what its answer costs, and that it is confirmed.
pub(crate) fn measure<K: Sink>(alloc: Global, number: u32, sink: &mut K) -> Status
    requires { IsSeed number }
    ensures told { Measures number (K.written sink.old) (K.written sink.new) result }
    ensures write_fault { MeetsWriteFault result (K.faults sink.old) (K.faults sink.new) }
{
    match measured_text(alloc, number) {
        Ok(text) => tell(&text, sink),
        Err(AllocError) => Status::NoMemory,
    }
}

/// Writes what is told of a measured plan.
fn tell<K: Sink>(text: &[u8], sink: &mut K) -> Status
    ensures told { IsTold text.now (K.written sink.old) (K.written sink.new) result }
    ensures write_fault { MeetsWriteFault result (K.faults sink.old) (K.faults sink.new) }
{
    match write_all(sink, text) {
        Ok(()) => Status::Done,
        Err(Failed) => Status::WriteFault,
    }
}

/// What is told of the plan of this number.
fn measured_text(alloc: Global, number: u32) -> Result<Vec<u8>, AllocError>
    requires { IsSeed number }
    ensures { IfOk result (λ text. TellsOf number text.items) }
{
    let document = measured_document(alloc, number)?;
    measure_text(alloc, &document)
}

/// The document of the answer for the plan of this number.
fn measured_document(alloc: Global, number: u32) -> Result<Document, AllocError>
    requires { IsSeed number }
    ensures { IfOk result (IsMeasured number) }
{
    let text = proved_text(alloc, number)?;
    checked_document(alloc, &text)
}

/// What `prove` answers for the plan of this number.
fn proved_text(alloc: Global, number: u32) -> Result<Vec<u8>, AllocError>
    requires { IsSeed number }
    ensures { IfOk result (λ text. IsProved (measured_state number) text.items) }
{
    let state = measured_state(alloc, number)?;
    prove_anew(alloc, &state)
}

/// The plan of this number, without vetoes.
fn measured_state(alloc: Global, number: u32) -> Result<State, AllocError>
    requires { IsSeed number }
    ensures { IfOk result (λ state. state ≡ measured_state number) }
{
    let vetoes = Vetoes::new(alloc)?;
    let plan = plan_of(alloc, number, EVENTS)?;
    Ok(State { plan, vetoes })
}

/// What `prove` answers in a state, by a searcher that has learned nothing.
fn prove_anew(alloc: Global, state: &State) -> Result<Vec<u8>, AllocError>
    ensures { IfOk result (λ text. IsProved state.now text.items) }
{
    let mut searcher = Searcher::new(alloc)?;
    prove_by(alloc, state, &mut searcher)
}

/// The same, by a searcher that stands for the state.
fn prove_by(alloc: Global, state: &State, searcher: &mut Searcher) -> Result<Vec<u8>, AllocError>
    requires { StandsFor searcher.old state.now }
    ensures { IfOk result (λ text. IsProved state.now text.items) }
{
    let mut relax = RelaxScratch::new(alloc)?;
    prove_in(alloc, state, searcher, &mut relax)
}

/// The same, in room to work in.
fn prove_in(
    alloc: Global,
    state: &State,
    searcher: &mut Searcher,
    relax: &mut RelaxScratch,
) -> Result<Vec<u8>, AllocError>
    requires { StandsFor searcher.old state.now }
    ensures { IfOk result (λ text. IsProved state.now text.items) }
{
    let mut text = Vec::new(alloc);
    match prove(alloc, state, searcher, relax, &mut text) {
        Ok(()) => Ok(text),
        Err(error) => Err(error),
    }
}

/// Reads and checks the text of a proof. By the laws of proofs it is read and confirmed, where there is memory.
fn checked_document(alloc: Global, text: &[u8]) -> Result<Document, AllocError>
    requires { (state : Asked) × (answer : Option Stated) × IsProof state answer text.now }
    ensures read { IfOk result (IsRead (lines text.now)) }
    ensures confirmed { IfOk result Confirmed }
{
    match read_document(alloc, text) {
        Ok(document) => confirmed(alloc, document),
        Err(DocumentRefusal::Memory(error)) => Err(error),
        Err(DocumentRefusal::Malformed { .. }) => unreachable!(),
    }
}

/// The document, once it is checked.
fn confirmed(alloc: Global, document: Document) -> Result<Document, AllocError>
    requires { Confirmed document }
    ensures same { IfOk result (λ same. same ≡ document) }
    ensures confirmed { IfOk result Confirmed }
{
    match check(alloc, &document) {
        Ok(()) => Ok(document),
        Err(CheckRefusal::Memory(error)) => Err(error),
        Err(CheckRefusal::NotConfirmed { .. }) => unreachable!(),
    }
}

/// The lines that tell of a measured document.
fn measure_text(alloc: Global, document: &Document) -> Result<Vec<u8>, AllocError>
    ensures { IfOk result (λ text. text.items ≡ measure_text document.now) }
{
    let mut text = Vec::new(alloc);
    text.extend_from_slice(b"leaves ")?;
    put_number(&mut text, document.leaves.as_slice().len() as i128)?;
    text.extend_from_slice(b"\n")?;
    put_cost(&mut text, document)?;
    text.extend_from_slice(b"confirmed\n")?;
    Ok(text)
}

/// Appends the line of what the answer costs, or `none`.
fn put_cost(text: &mut Vec<u8>, document: &Document) -> Result<(), AllocError>
    ensures { IfOk result (λ _.
        text.new.items ≡ text.old.items ++ cost_line document.now.answer) }
{
    match &document.answer {
        None => text.extend_from_slice(b"none\n"),
        Some(proposal) => {
            text.extend_from_slice(b"cost ")?;
            put_number(text, proposal.cost as i128)?;
            text.extend_from_slice(b"\n")
        }
    }
}
