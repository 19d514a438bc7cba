//! A merged taxonomy as a JSON value.

ghost use Rattle.std.specs.Prelude.{◌≡◌, ◌<◌, All, codes, length, map, slice_index_or, [], IfOk};
ghost use Rattle.std.specs.Str.{IsUtf8};
ghost use Rattle.serde_json.specs.Data.{string, array, object, member, no_members};
ghost use Rattle.serde_json.specs.View.{view, items_of};
ghost use Rattle.world_model.specs.Problem.{concept_count};
ghost use Rattle.merge_print.specs.Json.{HasUtf8Names, texts, class_names, split_names, two_numbers, merged_data, merged_json};
ghost use Rattle.merge_print.specs.Text.{AreConcepts, IsInRange};

use crate::names;
use crate::taxonomy::{Classes, MergedTaxonomy};
use constraint_set::Problem;
use serde_json::{Value, json};
use std::alloc::{AllocError, Global};
use std::str;

fn as_text(name: &[u8]) -> &str
    requires { IsUtf8 name.now }
    ensures { result.now ≡ name.now }
{
    str::from_utf8(name).unwrap()
}

fn text_values(alloc: Global, names: &[Vec<u8>]) -> Result<Vec<Value>, AllocError>
    requires { All IsUtf8 (map (λ v. v.items) names.now) }
    ensures { IfOk result (λ list. map view list.items ≡ map string (map (λ v. v.items) names.now)) }
{
    let mut list = Vec::new(alloc);
    for name in names {
        list.push(Value::try_from_str(alloc, as_text(name))?)?;
    }
    Ok(list)
}

fn texts(alloc: Global, names: &[Vec<u8>]) -> Result<Value, AllocError>
    requires { All IsUtf8 (map (λ v. v.items) names.now) }
    ensures { IfOk result (λ v. view v ≡ texts (map (λ v. v.items) names.now)) }
{
    Ok(Value::from(text_values(alloc, names)?))
}

fn class_names(alloc: Global, problem: &Problem, class: &[u32]) -> Result<Value, AllocError>
    requires within { All (λ c. c < concept_count problem.now) class.now }
    requires names { HasUtf8Names problem.now }
    ensures { IfOk result (λ v. view v ≡ class_names problem.now class.now) }
{
    texts(alloc, &names::class_names(alloc, problem, class)?)
}

fn split_names(alloc: Global, problem: &Problem, pair: (u32, u32)) -> Result<Value, AllocError>
    requires within { AreConcepts problem.now pair }
    requires names { HasUtf8Names problem.now }
    ensures { IfOk result (λ v. view v ≡ split_names problem.now pair) }
{
    let (x, y) = pair;
    texts(alloc, &names::part_names(alloc, problem, x, y)?)
}

fn two_numbers(alloc: Global, pair: (u32, u32)) -> Result<Value, AllocError>
    ensures { IfOk result (λ v. view v ≡ two_numbers pair) }
{
    let (class, parent) = pair;
    json!(in alloc; [class, parent])
}

fn class_at(
    alloc: Global,
    problem: &Problem,
    classes: &Classes,
    place: usize,
) -> Result<Value, AllocError>
    requires place { place < length classes.now }
    requires within { All (All (λ c. c < concept_count problem.now)) classes.now }
    requires names { HasUtf8Names problem.now }
    ensures { IfOk result (λ v. view v ≡ class_names problem.now (slice_index_or classes.now place [])) }
{
    class_names(alloc, problem, classes.class(place))
}

fn class_values(
    alloc: Global,
    problem: &Problem,
    classes: &Classes,
) -> Result<Vec<Value>, AllocError>
    requires within { All (All (λ c. c < concept_count problem.now)) classes.now }
    requires names { HasUtf8Names problem.now }
    ensures { IfOk result (λ list. map view list.items ≡ map (class_names problem.now) classes.now) }
{
    let mut list = Vec::new(alloc);
    for place in 0..classes.count() {
        list.push(class_at(alloc, problem, classes, place)?)?;
    }
    Ok(list)
}

fn split_values(
    alloc: Global,
    problem: &Problem,
    splits: &[(u32, u32)],
) -> Result<Vec<Value>, AllocError>
    requires within { All (AreConcepts problem.now) splits.now }
    requires names { HasUtf8Names problem.now }
    ensures { IfOk result (λ list. map view list.items ≡ map (split_names problem.now) splits.now) }
{
    let mut list = Vec::new(alloc);
    for pair in splits {
        list.push(split_names(alloc, problem, *pair)?)?;
    }
    Ok(list)
}

fn under_values(alloc: Global, under: &[(u32, u32)]) -> Result<Vec<Value>, AllocError>
    ensures { IfOk result (λ list. map view list.items ≡ map two_numbers under.now) }
{
    let mut list = Vec::new(alloc);
    for pair in under {
        list.push(two_numbers(alloc, *pair)?)?;
    }
    Ok(list)
}

fn object(
    alloc: Global,
    classes: Vec<Value>,
    splits: Vec<Value>,
    under: Vec<Value>,
) -> Result<Value, AllocError>
    ensures { IfOk result (λ v. view v ≡ object
        (member (codes "classes") (array (items_of (map view classes.items)))
        (member (codes "splits") (array (items_of (map view splits.items)))
        (member (codes "under") (array (items_of (map view under.items))) no_members)))) }
{
    json!(in alloc; {"classes": classes, "splits": splits, "under": under})
}

fn merged_value(
    alloc: Global,
    problem: &Problem,
    taxonomy: &MergedTaxonomy,
) -> Result<Value, AllocError>
    requires range { IsInRange problem.now taxonomy.now }
    requires names { HasUtf8Names problem.now }
    ensures { IfOk result (λ v. view v ≡ merged_data problem.now taxonomy.now) }
{
    let classes = class_values(alloc, problem, &taxonomy.classes)?;
    let splits = split_values(alloc, problem, taxonomy.splits.list())?;
    let under = under_values(alloc, taxonomy.under.list())?;
    object(alloc, classes, splits, under)
}

/// A merged taxonomy as one JSON object with no space: the names of each class, the names of each split's parts, and
/// the numbers of each class and one that it is under.
pub fn merged_json(
    alloc: Global,
    problem: &Problem,
    taxonomy: &MergedTaxonomy,
) -> Result<Vec<u8>, AllocError>
    requires range { IsInRange problem.now taxonomy.now }
    requires names { HasUtf8Names problem.now }
    ensures { IfOk result (λ text. text.items ≡ merged_json problem.now taxonomy.now) }
{
    merged_value(alloc, problem, taxonomy)?.to_vec(alloc)
}
