//! How many templates can be named. A row expects whether there is none, and the numbers below 4
//! that name one.
ghost use Rattle.cj_spans.specs.Meaning.Parts.{items_of};
ghost use Rattle.cj_spans.specs.View.{tree};
ghost use Rattle.cj_geometry.specs.ListSteps.{AreStepsOf};

use super::{is_text, tokens_of};
use cj_geometry::{Steps, Templates, check_geometry};
use cj_spans::{Doc, Kind, Least, Node};
use std::alloc::{AllocError, Global};
use std::process::Abort;
use std::test::Fail;

/// Returns the templates of a list, by its steps.
fn stepped<'a>(rt: &impl Abort, list: Node<'a>, steps: &'a Steps) -> Templates<'a>
    requires { AreStepsOf (items_of (tree list)) steps.now }
{
    match list.kind() {
        Kind::Array => Templates::stepped(list, steps),
        _ => panic!(rt; "no list of templates"),
    }
}

/// Returns whether an instance may name the template with this number.
fn is_named(
    rt: &impl Abort,
    alloc: Global,
    templates: Templates,
    number: u64,
) -> Result<bool, AllocError> {
    let line = format!(in alloc;
        r#"{{"type":"GeometryInstance","template":{number},"boundaries":[0],"transformationMatrix":[1,0,0,0,0,1,0,0,0,0,1,0,0,0,0,1]}}"#
    )?;
    let tokens = tokens_of(rt, alloc, line.as_bytes());
    let node = Doc::of(line.as_bytes(), tokens.as_slice()).root();
    let mut found = Least::new();
    check_geometry(node, Some(1), templates, &mut found);
    Ok(found.get().is_none())
}

/// Returns templates as a row has them.
fn shown(rt: &impl Abort, alloc: Global, templates: Templates) -> Result<String, AllocError> {
    let mut text = String::from_str(alloc, if templates.is_empty() { "none" } else { "some" })?;
    for number in 0..4 {
        if is_named(rt, alloc, templates, number)? {
            let word = format!(in alloc; " {number}")?;
            text.push_str(word.as_str())?;
        }
    }
    Ok(text)
}

/// Checks the templates of a line that is a list, by its steps.
fn list_meets(rt: &impl Abort, alloc: Global, line: &str, want: &str) -> Result<(), AllocError> {
    let tokens = tokens_of(rt, alloc, line.as_bytes());
    let list = Doc::of(line.as_bytes(), tokens.as_slice()).root();
    let steps = Steps::of(list);
    let found = shown(rt, alloc, stepped(rt, list, &steps))?;
    is_text(rt, &found, want, "lists that were gone over", line);
    Ok(())
}

#[test]
fn lists_that_were_gone_over(rt: HostRuntime) -> Result<(), Fail> {
    list_meets(&rt, rt.alloc(), "[]", "none")?;
    list_meets(&rt, rt.alloc(), "[{}]", "some 0")?;
    list_meets(&rt, rt.alloc(), "[{},null,[0,1]]", "some 0 1 2")?;
    Ok(())
}

#[test]
fn no_list_has_none_to_name(rt: HostRuntime) -> Result<(), Fail> {
    let empty = shown(&rt, rt.alloc(), Templates::empty())?;
    is_text(&rt, &empty, "none", "no list", "no templates");
    let itself = shown(&rt, rt.alloc(), Templates::template())?;
    is_text(&rt, &itself, "none", "no list", "a template itself");
    Ok(())
}
