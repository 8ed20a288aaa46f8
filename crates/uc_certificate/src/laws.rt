//! Laws over the definitions, each the contract of a function that does nothing.

ghost use Rattle.std.specs.Prelude.{◌≡◌, ◌++◌, ℕ, List, Result, Ok, Err};
ghost use Rattle.uc_term.specs.Table.{Table, Grows, IsDistinct};
ghost use Rattle.uc_certificate.specs.declared.border.Border.TheVariants.{Start};
ghost use Rattle.uc_certificate.specs.declared.certificate.Certificate.{Certificate};
ghost use Rattle.uc_certificate.specs.declared.fault.CertFault.{CertFault};
ghost use Rattle.uc_certificate.specs.Bounds.{IsBoundedCertificate};
ghost use Rattle.uc_certificate.specs.Headings.{is_border, HasNoLine};
ghost use Rattle.uc_certificate.specs.Interning.{InternsCertificate};
ghost use Rattle.uc_certificate.specs.Printable.{IsPrintableCertificate};
ghost use Rattle.uc_certificate.specs.Printing.{certificate_text, IsCertificateOf};
ghost use Rattle.uc_certificate.specs.Reading.{ReadsCertificate};

/// In a table whose entries are all different a text reads as at most one certificate, or is refused for one reason at one place. So
/// the contract that names this says exactly where each answer comes.
pub fn one_reading()
    ensures { (table : Table) (text : List ℕ) (a b : Result Certificate CertFault) → IsDistinct table → ReadsCertificate table text a → ReadsCertificate table text b → a ≡ b }
{}

/// What reading a certificate makes of the table of symbols is one table.
pub fn one_table()
    ensures { (text : List ℕ) (old new other : Table) → InternsCertificate text old new → InternsCertificate text old other → new ≡ other }
{}

/// What a text reads as in a table it reads as in each table that begins with it.
pub fn reading_stays()
    ensures { (old new : Table) (text : List ℕ) (answer : Result Certificate CertFault) → Grows old new → ReadsCertificate old text answer → ReadsCertificate new text answer }
{}

/// Why a text isn't read doesn't depend on the table, where the entries of a table are all different: a text that is refused in one
/// is refused in each for the same reason and at the same place.
pub fn one_refusal()
    ensures { (table other : Table) (text : List ℕ) (fault : CertFault) (answer : Result Certificate CertFault) → IsDistinct table → IsDistinct other → ReadsCertificate table text (Err fault) → ReadsCertificate other text answer → answer ≡ Err fault }
{}

/// The printed text of a certificate that is printable in a table reads there as this certificate: behind whole lines none of
/// which begins as a certificate does, and whatever stands behind its last line.
pub fn printed_reads_back()
    ensures { (table : Table) (files : List (List ℕ)) (c : Certificate) (before behind : List ℕ) → IsCertificateOf table c → IsBoundedCertificate c → IsPrintableCertificate table files c → HasNoLine (is_border Start) before → ReadsCertificate table (before ++ certificate_text table files c ++ behind) (Ok c) }
{}
