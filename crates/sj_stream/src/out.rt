// Where rows go.
use sj_base::Steps;
use sj_page::Page;

/// Where rows go: the sink, the page whose rows are not written yet, and the counter of the steps that they take.
#[derive(Drop)]
pub struct Out<'o, O> {
    pub sink: &'o mut O,
    pub page: &'o mut Page,
    pub steps: &'o mut Steps,
}
