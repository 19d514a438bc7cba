//! The text of a merged taxonomy, line by line at the end of what is there.

ghost use Rattle.std.specs.Prelude.{◌≡◌, ◌<◌, ◌≤◌, ◌+◌, ◌^◌, ◌++◌, All, length, map, flat_map, codes, decimal, IfOk, OnOk};
ghost use Rattle.std.specs.List.{range_with_len};
ghost use Rattle.world_model.specs.Problem.{concept_count};
ghost use Rattle.cleantax_text.specs.Canonical.{spaced};
ghost use Rattle.merge_print.specs.Text.{AreConcepts, IsInRange, equal_names, class_line, class_line_at, under_line, split_line, merged_text};

use crate::names::{class_names, part_names};
use crate::taxonomy::{Classes, MergedTaxonomy};
use constraint_set::Problem;
use proof_text::print_number;
use std::alloc::{AllocError, Global};

// Names with ` = ` before each.
fn put_others(out: &mut Vec<u8>, names: &[Vec<u8>]) -> Result<(), AllocError>
    ensures { OnOk result (out.new.items ≡ out.old.items ++ flat_map (λ other. codes " = " ++ other) (map (λ v. v.items) names.now)) }
{
    for name in names {
        out.extend_from_slice(b" = ")?;
        out.extend_from_slice(name)?;
    }
    Ok(())
}

fn put_equal(out: &mut Vec<u8>, names: &[Vec<u8>]) -> Result<(), AllocError>
    ensures { OnOk result (out.new.items ≡ out.old.items ++ equal_names (map (λ v. v.items) names.now)) }
{
    match names {
        [] => Ok(()),
        [name, others @ ..] => {
            out.extend_from_slice(name)?;
            put_others(out, others)
        }
    }
}

fn put_class(
    out: &mut Vec<u8>,
    alloc: Global,
    problem: &Problem,
    number: u64,
    class: &[u32],
) -> Result<(), AllocError>
    requires { All (λ c. c < concept_count problem.now) class.now }
    ensures { OnOk result (out.new.items ≡ out.old.items ++ class_line problem.now number class.now) }
{
    let names = class_names(alloc, problem, class)?;
    out.extend_from_slice(b"class ")?;
    print_number(out, number)?;
    out.extend_from_slice(b" ")?;
    put_equal(out, &names)?;
    out.extend_from_slice(b"\n")
}

fn put_class_at(
    out: &mut Vec<u8>,
    alloc: Global,
    problem: &Problem,
    classes: &Classes,
    place: usize,
) -> Result<(), AllocError>
    requires place { place < length classes.now }
    requires small { place + 1 < 2 ^ 64 }
    requires within { All (All (λ c. c < concept_count problem.now)) classes.now }
    ensures { OnOk result (out.new.items ≡ out.old.items ++ class_line_at problem.now classes.now place) }
{
    put_class(out, alloc, problem, place as u64 + 1, classes.class(place))
}

fn put_classes(
    out: &mut Vec<u8>,
    alloc: Global,
    problem: &Problem,
    classes: &Classes,
) -> Result<(), AllocError>
    requires { All (All (λ c. c < concept_count problem.now)) classes.now }
    ensures { OnOk result (out.new.items ≡ out.old.items ++ flat_map (class_line_at problem.now classes.now) (range_with_len 0 (length classes.now))) }
{
    for place in 0..classes.count() {
        put_class_at(out, alloc, problem, classes, place)?;
    }
    Ok(())
}

fn put_under(out: &mut Vec<u8>, pair: (u32, u32)) -> Result<(), AllocError>
    ensures { OnOk result (out.new.items ≡ out.old.items ++ under_line pair) }
{
    let (class, parent) = pair;
    out.extend_from_slice(b"under ")?;
    print_number(out, u64::from(class))?;
    out.extend_from_slice(b" ")?;
    print_number(out, u64::from(parent))?;
    out.extend_from_slice(b"\n")
}

fn put_all_under(out: &mut Vec<u8>, pairs: &[(u32, u32)]) -> Result<(), AllocError>
    ensures { OnOk result (out.new.items ≡ out.old.items ++ flat_map under_line pairs.now) }
{
    for pair in pairs {
        put_under(out, *pair)?;
    }
    Ok(())
}

// A space and a name for each.
fn put_spaced(out: &mut Vec<u8>, names: &[Vec<u8>]) -> Result<(), AllocError>
    ensures { OnOk result (out.new.items ≡ out.old.items ++ spaced (map (λ v. v.items) names.now)) }
{
    for name in names {
        out.extend_from_slice(b" ")?;
        out.extend_from_slice(name)?;
    }
    Ok(())
}

fn put_split(
    out: &mut Vec<u8>,
    alloc: Global,
    problem: &Problem,
    pair: (u32, u32),
) -> Result<(), AllocError>
    requires { AreConcepts problem.now pair }
    ensures { OnOk result (out.new.items ≡ out.old.items ++ split_line problem.now pair) }
{
    let (x, y) = pair;
    let both = class_names(alloc, problem, &[x, y])?;
    let parts = part_names(alloc, problem, x, y)?;
    out.extend_from_slice(b"split")?;
    put_spaced(out, &both)?;
    put_spaced(out, &parts)?;
    out.extend_from_slice(b"\n")
}

fn put_splits(
    out: &mut Vec<u8>,
    alloc: Global,
    problem: &Problem,
    pairs: &[(u32, u32)],
) -> Result<(), AllocError>
    requires { All (AreConcepts problem.now) pairs.now }
    ensures { OnOk result (out.new.items ≡ out.old.items ++ flat_map (split_line problem.now) pairs.now) }
{
    for pair in pairs {
        put_split(out, alloc, problem, *pair)?;
    }
    Ok(())
}

/// The text of a merged taxonomy: a line `class NUMBER NAMES` for each class, with ` = ` between names, `under C P`
/// for each class and one that it is under, and for each split `split X Y` and the names of its three parts.
pub fn merged_text(
    alloc: Global,
    problem: &Problem,
    taxonomy: &MergedTaxonomy,
) -> Result<Vec<u8>, AllocError>
    requires { IsInRange problem.now taxonomy.now }
    ensures { IfOk result (λ text. text.items ≡ merged_text problem.now taxonomy.now) }
{
    let mut text = Vec::new(alloc);
    put_classes(&mut text, alloc, problem, &taxonomy.classes)?;
    put_all_under(&mut text, taxonomy.under.list())?;
    put_splits(&mut text, alloc, problem, taxonomy.splits.list())?;
    Ok(text)
}
