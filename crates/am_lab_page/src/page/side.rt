//! The page between the picture and the changes. Made of `page/` by `check/page_texts.py --write`.

/// The side.
pub const SIDE: &str = r#"</div>
</div>
<nav id="marks" aria-label="Where messages were returned, unknown or given up" hidden></nav>
<aside id="side" aria-live="polite" aria-label="What is selected" tabindex="0" hidden></aside>
</main>
"#;
