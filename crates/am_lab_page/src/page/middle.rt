//! The page between the journal and the picture. Made of `page/` by `check/page_texts.py --write`.

/// What one filters and moves with.
pub const MIDDLE: &str = r#"</script>
</head>
<body>
<header id="bar" hidden>
<h1>am2 report</h1>
<p id="totals"></p>
<form id="filters" role="search" aria-label="Filter the lines">
<label>Search <input id="search" type="search" placeholder="words of a line" autocomplete="off"></label>
<label>Message <input id="by-message" inputmode="decimal" placeholder="0.1" size="6" autocomplete="off"></label>
<label>Endpoint <select id="by-endpoint"><option value="">any</option></select></label>
<label>Node <select id="by-node"><option value="">any</option></select></label>
<label>Fate <select id="by-fate"><option value="">any</option></select></label>
<label>Kind <select id="by-kind"><option value="">any</option></select></label>
<button type="reset">Clear</button>
<output id="matches"></output>
</form>
<div id="tools" role="toolbar" aria-label="View">
<button type="button" id="previous-mark" title="the one before: N">&#8593; Failed</button>
<button type="button" id="next-mark" title="the next message that was returned, unknown or given up: n">&#8595; Failed</button>
<label><input type="checkbox" id="fold-lanes"> Fold idle lanes</label>
<label><input type="checkbox" id="fold-lines"> Fold other lines</label>
<label>Rows <input type="range" id="height" min="3" max="30" aria-label="Height of the rows, in pixels"></label>
<details id="signs"><summary>Signs</summary><div></div></details>
<details id="keys"><summary>Keys</summary>
<dl>
<dt><kbd>j</kbd> <kbd>k</kbd></dt><dd>the next line, the one before</dd>
<dt><kbd>n</kbd> <kbd>N</kbd></dt><dd>the next that was returned, unknown or given up, the one before</dd>
<dt><kbd>/</kbd></dt><dd>search</dd>
<dt><kbd>Esc</kbd></dt><dd>lets the message go, then the filters</dd>
<dt><kbd>f</kbd></dt><dd>folds idle lanes</dd>
</dl></details>
</div>
</header>
<main id="main">
<div id="view">
<div id="corner" hidden>line</div>
<div id="heads" hidden></div>
<div id="lines" role="listbox" tabindex="0" aria-label="Lines of the journal" hidden></div>
<div id="picture">
"#;
