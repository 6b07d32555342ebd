//! What stands around tables: the head of a page, its links, titles, and its end (HTML, section 4).

/// Up to the title.
pub(crate) const HEAD: [u8; 181] = *b"\
<!DOCTYPE html>\n\
<html lang=\"en\">\n\
<head>\n\
<meta charset=\"utf-8\">\n\
<meta name=\"viewport\" content=\"width=device-width, initial-scale=1\">\n\
<link rel=\"stylesheet\" href=\"/style.css\">\n\
<title>";

/// Behind the title, up to the heading: the links to all pages but those of single studies.
pub(crate) const LINKS: [u8; 207] = *b"\
</title>\n\
</head>\n\
<body>\n\
<nav>\n\
<a href=\"/\">Site</a>\n\
<a href=\"/studies\">Studies</a>\n\
<a href=\"/rejected\">Rejected</a>\n\
<a href=\"/conflicts\">Conflicts</a>\n\
<a href=\"/corrections\">Corrections</a>\n\
</nav>\n\
<main>\n\
<h1>";

/// Below the table, up to the path of the same table in JSON.
pub(crate) const LINK: [u8; 12] = *b"<p><a href=\"";

/// Behind the path of the same table in JSON.
pub(crate) const END: [u8; 51] = *b"\
\">The same in JSON</a></p>\n\
</main>\n\
</body>\n\
</html>\n";

/// Above the instances of a study.
pub(crate) const INSTANCES: [u8; 19] = *b"<h2>Instances</h2>\n";

/// Above the corrections of its attributes.
pub(crate) const CORRECTIONS: [u8; 21] = *b"<h2>Corrections</h2>\n";
