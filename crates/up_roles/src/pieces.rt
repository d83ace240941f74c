//! Pieces of the texts of payloads.
ghost use Rattle.std.specs.Prelude.{◌≡◌, ◌++◌, [], IfOk, OnOk, codes, decimal, option_map, string_bytes, true, unwrap_or};
ghost use Rattle.up_canon.specs.Canon.{json_string};
ghost use Rattle.up_canon.specs.Moments.{moment_text};
ghost use Rattle.up_canon.specs.Names.{is_ident};
ghost use Rattle.up_roles.specs.Payload.{is_moment, is_named, repository_text};

use crate::repository::Repository;
use std::alloc::AllocError;
use up_canon::ident::Ident;
use up_canon::moment::{LAST_MOMENT, Moment};
use up_canon::writing::{push_ident, push_moment, push_number};

/// Begins an object with the moment of expiry.
pub(crate) fn push_expires(out: &mut String, expires: Moment) -> Result<(), AllocError>
    ensures value { IfOk result
        (λ _. string_bytes out.new ≡ string_bytes out.old ++ (codes "{\"expires\":" ++ json_string (moment_text expires))) }
    ensures typed { is_moment expires ≡ true }
{
    let second = expires.get();
    prove!(second <= LAST_MOMENT);
    out.push_str("{\"expires\":")?;
    push_moment(out, expires)?;
    Ok(())
}

/// Appends the repository.
pub(crate) fn push_repository(out: &mut String, repository: Repository) -> Result<(), AllocError>
    ensures { IfOk result (λ _. string_bytes out.new ≡ string_bytes out.old
        ++ (codes ",\"repository\":" ++ json_string (repository_text repository))) }
{
    match repository {
        Repository::Director => out.push_str(",\"repository\":\"director\"")?,
        Repository::Image => out.push_str(",\"repository\":\"image\"")?,
    }
    Ok(())
}

/// Appends the vehicle that a file is for, where there is one, and the file's version, and ends the object.
pub(crate) fn push_end(
    out: &mut String,
    vehicle: &Option<Ident>,
    version: u64,
) -> Result<(), AllocError>
    ensures value { IfOk result (λ _. string_bytes out.new ≡ string_bytes out.old
        ++ (unwrap_or (option_map (λ name. codes ",\"vehicle\":" ++ json_string name) vehicle.now) []
        ++ (codes ",\"version\":" ++ (decimal version ++ codes "}")))) }
    ensures typed { OnOk result (is_named vehicle.now ≡ true) }
{
    push_vehicle(out, vehicle)?;
    out.push_str(",\"version\":")?;
    push_number(out, version)?;
    out.push_str("}")?;
    Ok(())
}

fn push_vehicle(out: &mut String, vehicle: &Option<Ident>) -> Result<(), AllocError>
    ensures value { IfOk result (λ _. string_bytes out.new ≡ string_bytes out.old
        ++ unwrap_or (option_map (λ name. codes ",\"vehicle\":" ++ json_string name) vehicle.now) []) }
    ensures typed { OnOk result (is_named vehicle.now ≡ true) }
{
    match vehicle {
        Some(name) => {
            out.push_str(",\"vehicle\":")?;
            push_name(out, name)
        }
        None => Ok(()),
    }
}

/// Appends a name in quotes.
pub(crate) fn push_name(out: &mut String, name: &Ident) -> Result<(), AllocError>
    ensures value { IfOk result (λ _. string_bytes out.new ≡ string_bytes out.old ++ json_string name.now) }
    ensures typed { is_ident name.now ≡ true }
{
    // Noted for the proof: what an identifier is.
    name.text();
    push_ident(out, name)
}
