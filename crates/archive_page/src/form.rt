//! What stands in the form that asks for a search for studies (HTML, section 4.10).

/// Up to the fields of the form (HTML, section 4.10.3).
pub(crate) const FORM: [u8; 38] = *b"<form method=\"get\" action=\"/studies\">\n";

/// Up to the name that is searched for (HTML, section 4.10.5).
pub(crate) const NAME: [u8; 45] = *b"<label>Name <input name=\"PatientName\" value=\"";

/// Up to the Patient ID.
pub(crate) const PATIENT: [u8; 49] = *b"<label>Patient ID <input name=\"PatientID\" value=\"";

/// Up to the date.
pub(crate) const DATE: [u8; 43] = *b"<label>Date <input name=\"StudyDate\" value=\"";

/// Up to the accession number.
pub(crate) const ACCESSION: [u8; 54] =
    *b"<label>Accession <input name=\"AccessionNumber\" value=\"";

/// Up to the modality.
pub(crate) const MODALITY: [u8; 46] = *b"<label>Modality <input name=\"Modality\" value=\"";

/// Behind the fields of the form.
pub(crate) const BUTTON: [u8; 32] = *b"<button>Search</button>\n</form>\n";
