//! Whom a hello admits.
ghost use Rattle.std.specs.Prelude.{◌≡◌, ◌↔◌, ◌≤◌, length, true, IfOk, IsTrue};
ghost use Rattle.survey_core.specs.Legal.{IsDesk};
ghost use Rattle.survey_script.specs.Hellos.{admission_of, code_of, is_code, is_desk};

use json_forms::{Definition, Hello};
use survey_core::MAX_DESKS;

/// The first test that a hello fails.
#[derive(Clone, Copy, PartialEq, Eq, Debug)]
pub enum HelloFault {
    /// The name is no respondent's.
    Name,
    /// The code isn't the respondent's.
    Code,
    /// There is no such desk.
    Desk,
}

/// A respondent at a desk.
#[derive(Clone, Copy, PartialEq, Eq, Debug)]
pub struct Admitted {
    /// The respondent's number, counted from 1.
    pub respondent: u32,
    /// The desk's number.
    pub desk: u8,
}

/// Whom a hello admits to which desk.
///
/// # Errors
///
/// The first test that the hello fails.
pub fn admit(definition: &Definition, hello: &Hello) -> Result<Admitted, HelloFault>
    ensures exact { result ≡ admission_of definition.now hello.now }
    ensures respondent { IfOk result (λ admitted. (1 ≤ admitted.respondent) × (admitted.respondent ≤ length definition.now.respondents)) }
    ensures desk { IfOk result (λ admitted. IsDesk admitted.desk) }
{
    let Some(respondent) = definition.respondent(hello.name()) else {
        return Err(HelloFault::Name);
    };
    if !has_code(definition, respondent, hello.code()) {
        return Err(HelloFault::Code);
    }
    if !has_desk(hello.desk()) {
        return Err(HelloFault::Desk);
    }
    Ok(Admitted {
        respondent,
        desk: hello.desk() as u8,
    })
}

/// Whether this is the code of the respondent.
fn has_code(definition: &Definition, respondent: u32, code: &[u8]) -> bool
    ensures { result ≡ is_code (code_of definition.now respondent) code.now }
{
    definition.code_is(respondent, code)
}

/// Whether there is a desk of this number.
fn has_desk(desk: u64) -> bool
    ensures { result ≡ is_desk desk }
{
    desk >= 1 && desk <= u64::from(MAX_DESKS)
}
