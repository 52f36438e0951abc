ghost use Rattle.std.specs.Prelude.{◌≡◌, ◌<◌, ◌^◌, ◌⊎◌, ◌++◌, ◌∷◌, [], IfOk, IfErr, OnOk, codes, decimal, length, map};
ghost use Rattle.chain_graph.specs.Paths.{CallsNameChains};
ghost use Rattle.closure.specs.Checked.{HasPolicy};
ghost use Rattle.fw_rule.specs.Calls.{HasRoom};
ghost use Rattle.interval_set.specs.Numbers.{IsWidth};
ghost use Rattle.request.specs.Requests.{AreSpaces};
ghost use Rattle.fffuu_run.specs.Questions.{Comes, IsWithin};
ghost use Rattle.fffuu_run.specs.Matrices.{IsMatrixOver, IsMatrixText, Matrices, RefusesMatrices, class_line, class_lines, edge_count, edge_line, edge_lines, matrix_text, row_lines};
ghost use Rattle.fffuu_run.specs.inner.Readings.{HoldsOfTexts, WasRead};

use crate::Status;
use crate::dumps::DumpResult;
use crate::questions::{AskedChain, question, told};
use crate::spaces::{append_count, with_spaces};
use addr_text::Family;
use fw_rule::{Dump, Side};
use fw_text::ranges_text;
use interval_set::Set;
use match_expr::List;
use primitives::Prim_;
use request::{Claim, Hop};
use service_matrix::{Matrix, Service, matrix};
use simple_filter::Refusal;
use std::alloc::{AllocError, Global};

// The line of a class: its number and its ranges.
fn class_line<F: Family<W>, const W: u32>(
    alloc: Global,
    i: usize,
    class: &Set<W>,
) -> Result<Vec<u8>, AllocError>
    ensures { IfOk result (λ text. text.items ≡ class_line F.text_of i class.now) }
{
    let mut text = format!(in alloc; "{i} ")?.into_bytes();
    ranges_text::<F, W>(alloc, class, &mut text)?;
    text.push(b'\n')?;
    Ok(text)
}

// Appends a line for each class.
fn append_classes<F: Family<W>, const W: u32>(
    alloc: Global,
    classes: &[Set<W>],
    out: &mut Vec<u8>,
) -> Result<(), AllocError>
    ensures { OnOk result (out.new.items ≡ out.old.items ++ class_lines F.text_of 0 classes.now) }
{
    for (i, class) in classes.iter().enumerate() {
        out.extend_from_slice(&class_line::<F, W>(alloc, i, class)?)?;
    }
    Ok(())
}

// The line of an edge.
fn edge_line(alloc: Global, i: usize, j: usize) -> Result<String, AllocError>
    ensures { IfOk result (λ text. text.bytes.items ≡ edge_line i j) }
{
    format!(in alloc; "{i} {j}\n")
}

// Appends the lines of the edges from a class.
fn append_row(alloc: Global, i: usize, row: &[bool], out: &mut Vec<u8>) -> Result<(), AllocError>
    ensures { OnOk result (out.new.items ≡ out.old.items ++ row_lines i 0 row.now) }
{
    for (j, edge) in row.iter().enumerate() {
        if *edge {
            out.extend_from_slice(edge_line(alloc, i, j)?.as_bytes())?;
        }
    }
    Ok(())
}

// Appends the lines of all edges.
fn append_edges(alloc: Global, edges: &[List<bool>], out: &mut Vec<u8>) -> Result<(), AllocError>
    ensures { OnOk result (out.new.items ≡ out.old.items ++ edge_lines 0 edges.now) }
{
    for (i, row) in edges.iter().enumerate() {
        append_row(alloc, i, row.as_slice(), out)?;
    }
    Ok(())
}

// How many edges there are.
fn edge_count(edges: &[List<bool>]) -> u128
    ensures { result ≡ edge_count edges.now }
{
    let mut count = 0;
    for row in edges {
        count += row.as_slice().iter().filter(|edge| **edge).count() as u128;
    }
    count
}

// The text of a matrix.
fn text_of<F: Family<W>, const W: u32>(
    alloc: Global,
    matrix: &Matrix<W>,
) -> Result<Vec<u8>, AllocError>
    ensures { IfOk result (λ text. text.items ≡ matrix_text F.text_of matrix.now.classes matrix.now.edges) }
{
    let classes = matrix.classes.as_slice();
    let edges = matrix.edges.as_slice();
    let mut text = Vec::new(alloc);
    append_count(alloc, "classes", classes.len() as u128, &mut text)?;
    append_classes::<F, W>(alloc, classes, &mut text)?;
    append_count(alloc, "edges", edge_count(edges), &mut text)?;
    append_edges(alloc, edges, &mut text)?;
    Ok(text)
}

// The text of the service's matrix in a chain.
fn matrix_of<F: Family<W>, const W: u32>(
    alloc: Global,
    dump: &Dump<Prim_<W>>,
    chain: u32,
    side: Side,
    service: &Service,
) -> Result<Vec<u8>, Refusal>
    requires width { IsWidth W }
    requires policy { HasPolicy dump.now chain }
    requires room { HasRoom dump.now }
    requires named { CallsNameChains dump.now }
    ensures ok { IfOk result (λ written. IsMatrixText F.text_of side service.now [] [] dump.now chain written.items) }
    ensures within { OnOk result (IsWithin dump.now chain (IsMatrixOver side dump.now chain)) }
    ensures refused { IfErr result (Comes dump.now chain (IsMatrixOver side dump.now chain)) }
{
    let found = matrix(alloc, dump, chain, side, service)?;
    Ok(text_of::<F, W>(alloc, &found)?)
}

/// The matrix of a service in the chain of this name of the dump that was read, with zones and routes, if there are some.
pub fn matrix_text<F: Family<W>, const W: u32>(
    alloc: Global,
    side: Side,
    service: &Service,
    zones: &[Claim],
    hops: &[Hop],
    name: &[u8],
    read: DumpResult<W>,
) -> Result<Vec<u8>, Status>
    requires width { IsWidth W }
    requires read { WasRead W F.Reads read }
    requires spaces { AreSpaces W zones.now hops.now }
    ensures ok { IfOk result (λ written. HoldsOfTexts W F.Reads read.entry
        (λ text. Matrices W F.Reads F.text_of side service.now zones.now hops.now name.now text written.items)) }
    ensures refused { IfErr result (λ s. (s ≡ Status.Memory) ⊎ HoldsOfTexts W F.Reads read.entry
        (λ text. RefusesMatrices W F.Reads F.text_of side service.now zones.now hops.now name.now text s)) }
{
    let AskedChain { dump, chain, .. } = question::<F, W>(name, read)?;
    let other = with_spaces(alloc, dump, zones, hops)?;
    match matrix_of::<F, W>(alloc, &other, chain, side, service) {
        Ok(written) => Ok(written),
        Err(refusal) => Err(told(alloc, &other, refusal)),
    }
}
