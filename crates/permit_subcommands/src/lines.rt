//! The lines that report what was done.

ghost use Rattle.std.specs.Prelude.{◌≡◌, IfOk, string_bytes};
ghost use Rattle.permit_subcommands.specs.Lines.{sound_line, upgraded_line};

use permit_store::rows::Desk;
use std::alloc::{AllocError, Global};

/// The line on a database that was upgraded: how many of its files keep their list of inspections.
pub fn upgraded_text(alloc: Global, files: u32) -> Result<String, AllocError>
    ensures { IfOk result (λ text. string_bytes text ≡ upgraded_line files) }
{
    format!(in alloc; "upgraded files {files}\n")
}

/// The line on tables that are sound.
pub fn sound_text(alloc: Global, desk: &Desk) -> Result<String, AllocError>
    ensures { IfOk result (λ text. string_bytes text ≡ sound_line desk.now) }
{
    let parties = desk.parties;
    let parcels = desk.parcels;
    let files = desk.files;
    format!(in alloc; "sound parties {parties} parcels {parcels} files {files}\n")
}
