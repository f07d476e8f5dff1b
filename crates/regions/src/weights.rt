// The weight of each region, by one pass over the vertices.
ghost use Rattle.std.specs.Prelude.{◌≡◌, ℕ, ◌+◌, ◌*◌, ◌<◌, ◌≤◌, ltb, length, get_or};
ghost use Rattle.graph.specs.Lists.{every};
ghost use Rattle.regions.specs.Labels.{label_of};
ghost use Rattle.regions.specs.Buckets.{labels_below, pour, poured, weighable, weighed};
ghost use Rattle.graph.specs.Lists.{number_of};

// Whether there is a number for each vertex, from place first on, and each label is a vertex.
pub fn labels_below(labels: &[u8; 64], words: &[u32], first: usize, num_vertices: usize) -> bool
    ensures { result ≡ labels_below labels.now words.now first num_vertices }
{
    num_vertices <= 64
        && first <= words.len()
        && num_vertices <= words.len() - first
        && (0..num_vertices).all(|v| usize::from(labels[v]) < num_vertices)
}

// Whether no weight is over 1,000,000.
fn light(words: &[u32], first: usize, num_vertices: usize) -> bool
    requires { first + num_vertices ≤ length words.now }
    ensures { result ≡ every (λ v. ltb (number_of words.now first v) 1000001) num_vertices }
{
    (0..num_vertices).all(|v| words[first + v] <= 1000000)
}

// The weight of each region, at its label.
fn fill(labels: &[u8; 64], words: &[u32], first: usize, num_vertices: usize, sums: &mut [u32; 64])
    requires { (num_vertices ≤ 64) × (first + num_vertices ≤ length words.now) × ((v : ℕ) → v < num_vertices → label_of labels.now v < num_vertices) × ((v : ℕ) → v < num_vertices → number_of words.now first v ≤ 1000000) }
    ensures { sums.new ≡ poured labels.now (number_of words.now first) num_vertices sums.old }
{
    sums[..num_vertices].fill(0);
    for v in 0..num_vertices {
        sums[usize::from(labels[v])] += words[first + v];
    }
}

// The weight of each region, at its label. The answer is false, and nothing is written, where the weights cannot be added.
pub fn region_weights(
    labels: &[u8; 64],
    words: &[u32],
    first: usize,
    num_vertices: usize,
    sums: &mut [u32; 64],
) -> bool
    ensures { (result ≡ weighable labels.now words.now first num_vertices) × (sums.new ≡ weighed labels.now words.now first num_vertices sums.old) }
{
    if labels_below(labels, words, first, num_vertices) && light(words, first, num_vertices) {
        fill(labels, words, first, num_vertices, sums);
        return true;
    }
    false
}
