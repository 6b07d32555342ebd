//! The style sheet of all pages, at any width.

/// The style sheet, in the colours of the reader, dark or light (CSS Color 4, section 6.2).
pub(crate) const STYLE: [u8; 827] = *b"\
:root { color-scheme: light dark; }\n\
body { margin: 0; background: Canvas; color: CanvasText; font: 1rem/1.5 system-ui, sans-serif; }\n\
nav { display: flex; flex-wrap: wrap; gap: 0 1rem; padding: 0.5rem 1rem; }\n\
nav, th, td { border-bottom: 1px solid GrayText; }\n\
main { padding: 0 1rem 1rem; overflow-x: auto; }\n\
form { display: flex; flex-wrap: wrap; gap: 0.5rem 1rem; align-items: end; padding-bottom: 1rem; }\n\
label { display: grid; font-size: 0.875rem; }\n\
input, button { font: inherit; padding: 0.125rem 0.5rem; max-width: 12rem; }\n\
p a { margin-right: 1rem; }\n\
table { border-collapse: collapse; }\n\
th, td { min-width: 3rem; padding: 0.25rem 1rem 0.25rem 0; }\n\
th, td { text-align: left; vertical-align: top; overflow-wrap: break-word; }\n\
@media (max-width: 40rem) { body { font-size: 0.875rem; } th, td { padding-right: 0.5rem; } }\n";
