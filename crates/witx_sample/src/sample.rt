//! Bundles of any size, made by a rule.
#![tactic(auto, using(crate::proofs::Numbered::numbered_rules))]

ghost use Rattle.std.specs.Prelude.{◌≡◌, ◌↔◌, ◌≤◌, ◌++◌, ℕ, true, IfOk, Ok, OnOk, string_bytes};
ghost use Rattle.witx_bundle.specs.Bundles.{IsRead};
ghost use Rattle.witx_sample.specs.Samples.{each_below, func_head, sample_func_line, func_params, func_result, is_size, list_case, sample_module_text, record_case, record_line, sample_text, type_lines, sample_types_text, variant_head, variant_line};

use std::alloc::{AllocError, Global};
use std::fmt::Write;
use witx_base::{OutOfMemory, Text};
use witx_bundle::{Bundle, BundleError};
use witx_files::MockFs;

/// How many functions the largest sample has.
pub const LARGEST_SAMPLE: usize = 4096;

/// A sample can have 1 to 4,096 functions, and no other number.
#[tactic(auto, using(crate::proofs::Sizes::size_rules))]
pub fn largest_sample()
    ensures limit { LARGEST_SAMPLE ≡ 4096 }
    ensures sizes { (n : ℕ) → is_size n ≡ true ↔ ((1 ≤ n) × (n ≤ 4096)) }
{}

/// The bundle of the sample of `n` functions, in one file, `/sample.witx`: an enumeration, `n` records
/// and variants, and a module of `n` functions over them. A sample has 1 to [`LARGEST_SAMPLE`].
#[tactic(auto, unfolding(crate::specs::Samples::sample_text))]
pub fn sample_bundle(alloc: Global, n: usize) -> Result<Text, OutOfMemory>
    ensures { IfOk result (λ text. text ≡ sample_text n) }
{
    let mut text = String::new(alloc);
    put_types(&mut text, n)?;
    put_module(&mut text, n)?;
    Ok(Text::from_string(text))
}

/// The files of that bundle, which is read as any other.
#[tactic(auto, using(crate::proofs::SampleBundles::bundle_rules))]
pub fn sample_files(alloc: Global, n: usize) -> Result<MockFs, OutOfMemory>
    requires { n ≤ LARGEST_SAMPLE }
    ensures { IfOk result (λ files. IsRead (sample_text n) (Ok files)) }
{
    let text = sample_bundle(alloc, n)?;
    match Bundle::read(alloc, text.as_str().as_bytes()) {
        Ok(files) => Ok(files),
        Err(BundleError::OutOfMemory) => Err(OutOfMemory),
        Err(_) => unreachable!(),
    }
}

/// The header and the typenames.
#[tactic(auto, unfolding(crate::specs::Samples::sample_types_text))]
fn put_types(text: &mut String, n: usize) -> Result<(), AllocError>
    ensures { OnOk result (string_bytes text.new ≡ string_bytes text.old ++ sample_types_text n) }
{
    text.push_str(";;;; file /sample.witx\n")?;
    text.push_str("(typename $e (enum (@witx tag u16) $ok $bad))\n")?;
    put_numbered_types(text, n)
}

fn put_numbered_types(text: &mut String, n: usize) -> Result<(), AllocError>
    ensures { OnOk result (string_bytes text.new ≡ string_bytes text.old ++ each_below type_lines n) }
{
    for i in 0..n {
        put_types_of(text, i)?;
    }
    Ok(())
}

/// The record and the variant of a number.
#[tactic(auto, unfolding(crate::specs::Samples::type_lines))]
fn put_types_of(text: &mut String, i: usize) -> Result<(), AllocError>
    ensures { OnOk result (string_bytes text.new ≡ string_bytes text.old ++ type_lines i) }
{
    put_record(text, i)?;
    put_variant(text, i)
}

#[tactic(auto, unfolding(crate::specs::Samples::record_line))]
fn put_record(text: &mut String, i: usize) -> Result<(), AllocError>
    ensures { OnOk result (string_bytes text.new ≡ string_bytes text.old ++ record_line i) }
{
    write!(
        text,
        "(typename $r{i} (record (field $a u32) (field $b $e) (field $c u64)))\n"
    )
}

fn put_variant(text: &mut String, i: usize) -> Result<(), AllocError>
    ensures { OnOk result (string_bytes text.new ≡ string_bytes text.old ++ variant_line i) }
{
    put_variant_head(text, i)?;
    put_record_case(text, i)?;
    put_list_case(text, i)
}

#[tactic(auto, unfolding(crate::specs::Samples::variant_head))]
fn put_variant_head(text: &mut String, i: usize) -> Result<(), AllocError>
    ensures { OnOk result (string_bytes text.new ≡ string_bytes text.old ++ variant_head i) }
{
    write!(text, "(typename $v{i} (variant (@witx tag u8)")
}

#[tactic(auto, unfolding(crate::specs::Samples::record_case))]
fn put_record_case(text: &mut String, i: usize) -> Result<(), AllocError>
    ensures { OnOk result (string_bytes text.new ≡ string_bytes text.old ++ record_case i) }
{
    write!(text, " (case $x $r{i})")
}

#[tactic(auto, unfolding(crate::specs::Samples::list_case))]
fn put_list_case(text: &mut String, i: usize) -> Result<(), AllocError>
    ensures { OnOk result (string_bytes text.new ≡ string_bytes text.old ++ list_case i) }
{
    write!(text, " (case $y (list $r{i})) (case $z)))\n")
}

/// The module with its functions.
#[tactic(auto, unfolding(crate::specs::Samples::sample_module_text))]
fn put_module(text: &mut String, n: usize) -> Result<(), AllocError>
    ensures { OnOk result (string_bytes text.new ≡ string_bytes text.old ++ sample_module_text n) }
{
    text.push_str("(module $m\n")?;
    put_functions(text, n)?;
    text.push_str(")\n")
}

fn put_functions(text: &mut String, n: usize) -> Result<(), AllocError>
    ensures { OnOk result (string_bytes text.new ≡ string_bytes text.old ++ each_below sample_func_line n) }
{
    for i in 0..n {
        put_function(text, i)?;
    }
    Ok(())
}

fn put_function(text: &mut String, i: usize) -> Result<(), AllocError>
    ensures { OnOk result (string_bytes text.new ≡ string_bytes text.old ++ sample_func_line i) }
{
    put_func_head(text, i)?;
    put_func_params(text, i)?;
    put_func_result(text, i)
}

#[tactic(auto, unfolding(crate::specs::Samples::func_head))]
fn put_func_head(text: &mut String, i: usize) -> Result<(), AllocError>
    ensures { OnOk result (string_bytes text.new ≡ string_bytes text.old ++ func_head i) }
{
    write!(text, "(@interface func (export \"f{i}\")")
}

#[tactic(auto, unfolding(crate::specs::Samples::func_params))]
fn put_func_params(text: &mut String, i: usize) -> Result<(), AllocError>
    ensures { OnOk result (string_bytes text.new ≡ string_bytes text.old ++ func_params i) }
{
    write!(text, " (param $p $v{i}) (param $q string)")
}

#[tactic(auto, unfolding(crate::specs::Samples::func_result))]
fn put_func_result(text: &mut String, i: usize) -> Result<(), AllocError>
    ensures { OnOk result (string_bytes text.new ≡ string_bytes text.old ++ func_result i) }
{
    write!(
        text,
        " (result $s (expected (tuple $r{i} $e) (error $e))))\n"
    )
}
