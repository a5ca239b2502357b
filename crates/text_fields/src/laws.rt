//! Laws of reading. Each function does nothing; its contract is the law.
ghost use Rattle.text_fields.specs.Laws.{WordIsField, NumberIsField, CertificateIsField, NumbersAreField, CertificatesAreField};

/// A word is read exactly where it stands.
pub fn word_is_field()
    ensures { WordIsField }
{}

/// A number is read exactly where it is written as `{}` writes it.
pub fn number_is_field()
    ensures { NumberIsField }
{}

/// A certificate number is read exactly where it is written as `{}` writes it.
pub fn certificate_is_field()
    ensures { CertificateIsField }
{}

/// A list of numbers is read exactly where they stand joined by commas.
pub fn numbers_are_field()
    ensures { NumbersAreField }
{}

/// A list of certificate numbers is read exactly where they stand joined by commas.
pub fn certificates_are_field()
    ensures { CertificatesAreField }
{}
